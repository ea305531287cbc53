// Whether a new table is an old one with unused lets dropped, by a pairing of its nodes with the old ones (document 02, n).
#![tactic(auto)]

ghost use Rattle.std.specs.Prelude.{◌≡◌, Bool, not, suc, ◌+◌, ◌-◌, ◌≤◌, ◌<◌, eqb, ltb, length, Ok};
ghost use Rattle.rules.specs.Bytes.{◌and◌, ◌or◌};
ghost use Rattle.rules.specs.Layout.{nodes};
ghost use Rattle.rules.specs.Kinds.{fields_of};
ghost use Rattle.rules.specs.Shaped.{Shaped};
ghost use Rattle.rules.specs.Accepted.{Accepted};
ghost use Rattle.rules.specs.Calls.{program_verdict};
ghost use Rattle.dropped.specs.Pairing.{old_of, reaches, pairing_fault};
ghost use Rattle.dropped.specs.PairedCall.{editions_differ, entries_answer, pairing_answer, new_answer, paired_call};
ghost use Rattle.dropped.specs.Clauses.{unless as unlessOf, earlier as earlierOf, next_broken, field_broken, fields_broken, entry_broken, clause_of, clause_call, number_of, number_in};
ghost use Rattle.reaching.specs.Leads.{LeadsTo, Leads, InField, InFields};
ghost use Rattle.pairing.specs.Asked.{a_of, c_of};

use dropped::{Clause, Unpaired};
use kinds::{a_in, b_in, both, c_in, row_of};
use reaching::{child_broken, earlier, named_broken, next_broken, old_of, reached, unless};
use rules::{Field, Node};
use table::node;
use verdict::judge;

// What field a holds, and field c, by the row of the kind: a row has the children, and a variable's binder and a case's target are none.
fn a_of(k: u8, row: u32) -> Field
    ensures { result ≡ a_of k row }
{
    if k == 16 {
        return Field::Binder;
    }
    a_in(row)
}

fn c_of(k: u8, row: u32) -> Field
    ensures { result ≡ c_of k row }
{
    if k == 10 {
        return Field::Target;
    }
    c_in(row)
}

// Where node m leads through the bodies of lets, given this for smaller nodes.
fn lead(p: &[u8], ends: &mut [u16], m: usize)
    requires { Shaped p.now × (m < nodes p.now) × LeadsTo m p.now ends.old }
    ensures { LeadsTo (m + 1) p.now ends.new }
{
    let n = node(p, m);
    if n.kind == 5 {
        let b = n.b;
        ends[m] = ends[b];
    } else {
        ends[m] = m as u16;
    }
}

// Where each node leads, in one pass upward: a body's number is smaller.
fn lead_all(p: &[u8], ends: &mut [u16], count: usize)
    requires { Accepted p.now × (count ≡ nodes p.now) × (count ≤ length ends.old) }
    ensures { Leads p.now ends.new }
{
    for m in 0..count {
        lead(p, ends, m);
    }
}

// A field x of a new node beside the same field y of its old one.
fn field_broken(
    p: &[u8],
    ends: &[u16],
    pairing: &[u16],
    count: usize,
    child: Clause,
    f: Field,
    x: usize,
    y: usize,
) -> Option<Clause>
    requires { Leads p.now ends.now × InField p.now f y }
    ensures { number_in result ≡ field_broken p.now count (old_of pairing.now) (number_of child) f x y }
{
    match f {
        Field::Unused => unless(x == y, Clause::PlainFields),
        Field::Channel => unless(x == y, Clause::PlainFields),
        Field::PresentByte => unless(x == y, Clause::PlainFields),
        Field::Signal => child_broken(p, ends, pairing, child, x, y),
        Field::Expression => child_broken(p, ends, pairing, child, x, y),
        Field::FirstBranch => child_broken(p, ends, pairing, child, x, y),
        Field::NextBranch => next_broken(p, ends, pairing, child, x, y),
        Field::FirstCase => child_broken(p, ends, pairing, child, x, y),
        Field::NextCase => next_broken(p, ends, pairing, child, x, y),
        Field::Binder => named_broken(pairing, count, x, y),
        Field::Target => named_broken(pairing, count, x, y),
    }
}

// The three fields of a new node n of the kind of its old one, o.
fn fields_broken(
    p: &[u8],
    ends: &[u16],
    pairing: &[u16],
    count: usize,
    n: Node,
    o: Node,
) -> Option<Clause>
    requires { Leads p.now ends.now × InFields p.now (fields_of n.kind) o.a o.b o.c }
    ensures { number_in result ≡ fields_broken p.now count (old_of pairing.now) (fields_of n.kind) n.a n.b n.c o.a o.b o.c }
{
    let k = n.kind;
    let row = row_of(k);
    let fa = a_of(k, row);
    let fb = b_in(row);
    let fc = c_of(k, row);
    let a = field_broken(p, ends, pairing, count, Clause::ChildA, fa, n.a, o.a);
    let b = field_broken(p, ends, pairing, count, Clause::ChildB, fb, n.b, o.b);
    let c = field_broken(p, ends, pairing, count, Clause::ChildC, fc, n.c, o.c);
    earlier(a, earlier(b, c))
}

// The last entry names a node reached from the old root.
fn last_broken(
    p: &[u8],
    ends: &[u16],
    olds: usize,
    count: usize,
    i: usize,
    j: usize,
) -> Option<Clause>
    requires { Leads p.now ends.now × (olds ≡ nodes p.now) × (0 < olds) × (i < count) }
    ensures { number_in result ≡ unlessOf (not (eqb (suc i) count) or reaches p.now (olds - 1) j) 8 }
{
    if i + 1 == count {
        return unless(reached(p, ends, olds - 1, j), Clause::Root);
    }
    None
}

// Which clause entry i breaks first; none where it is right.
fn entry_broken(
    p: &[u8],
    q: &[u8],
    ends: &[u16],
    pairing: &[u16],
    olds: usize,
    count: usize,
    i: usize,
) -> Option<Clause>
    requires { Leads p.now ends.now × Shaped q.now × (olds ≡ nodes p.now) × (count ≡ nodes q.now) × (i < count) }
    ensures { number_in result ≡ entry_broken p.now q.now (old_of pairing.now) i }
{
    let j = old_of(pairing, i);
    if olds <= j {
        return Some(Clause::OldNode);
    }
    let n = node(q, i);
    let o = node(p, j);
    if n.kind != o.kind {
        return Some(Clause::PlainFields);
    }
    let plain = unless(both(n.ty == o.ty, n.word == o.word), Clause::PlainFields);
    let fields = fields_broken(p, ends, pairing, count, n, o);
    let last = last_broken(p, ends, olds, count, i, j);
    earlier(plain, earlier(fields, last))
}

// The first wrong entry.
fn first_wrong(
    p: &[u8],
    q: &[u8],
    ends: &[u16],
    pairing: &[u16],
    olds: usize,
    count: usize,
) -> Option<u32>
    requires { Leads p.now ends.now × Shaped q.now × (olds ≡ nodes p.now) × (count ≡ nodes q.now) }
    ensures { result ≡ pairing_fault p.now q.now pairing.now }
{
    for i in 0..count {
        let broken = entry_broken(p, q, ends, pairing, olds, count, i);
        if broken.is_some() {
            return Some(i as u32);
        }
    }
    None
}

// Code 28, or none.
fn entries_answer(wrong: Option<u32>) -> Result<(), Unpaired>
    ensures { result ≡ entries_answer wrong }
{
    match wrong {
        Some(i) => Err(Unpaired::EntryWrong(i)),
        None => Ok(()),
    }
}

// Code 28 of two accepted programs, with where each old node leads written down first.
fn entries(p: &[u8], q: &[u8], pairing: &[u16], olds: usize, count: usize) -> Result<(), Unpaired>
    requires { Accepted p.now × Accepted q.now × (olds ≡ nodes p.now) × (count ≡ nodes q.now) }
    ensures { result ≡ entries_answer (pairing_fault p.now q.now pairing.now) }
{
    let mut ends: [u16; 1008] = [0; 1008];
    lead_all(p, &mut ends, olds);
    let wrong = first_wrong(p, q, &ends, pairing, olds, count);
    entries_answer(wrong)
}

// Code 29: byte 3 of the first blocks differs.
fn editions_differ(p: &[u8], q: &[u8]) -> bool
    requires { (4 ≤ length p.now) × (4 ≤ length q.now) }
    ensures { result ≡ editions_differ p.now q.now }
{
    p[3] != q[3]
}

// Codes 29, 27, 28 of two accepted programs.
fn pairing_answer(
    p: &[u8],
    q: &[u8],
    pairing: &[u16],
    olds: usize,
    count: usize,
) -> Result<(), Unpaired>
    requires { Accepted p.now × Accepted q.now × (olds ≡ nodes p.now) × (count ≡ nodes q.now) }
    ensures { result ≡ pairing_answer p.now q.now pairing.now }
{
    if editions_differ(p, q) {
        return Err(Unpaired::EditionsDiffer);
    }
    if pairing.len() == count {
        return entries(p, q, pairing, olds, count);
    }
    Err(Unpaired::PairingLength)
}

// Codes 1-8 of the new program, then the pairing's, of an old program that is accepted.
fn new_answer(p: &[u8], q: &[u8], pairing: &[u16], olds: usize) -> Result<(), Unpaired>
    requires { Accepted p.now × (olds ≡ nodes p.now) }
    ensures { result ≡ new_answer p.now q.now pairing.now (program_verdict q.now) }
{
    match judge(q) {
        Err(r) => Err(Unpaired::NewRefused(r)),
        Ok(found) => pairing_answer(p, q, pairing, olds, found.count),
    }
}

// Whether the new table is the old one with unused lets dropped, by the pairing: entry i is the old node of new node i.
pub fn paired(old: &[u8], new: &[u8], pairing: &[u16]) -> Result<(), Unpaired>
    ensures { result ≡ paired_call old.now new.now pairing.now }
{
    match judge(old) {
        Err(r) => Err(Unpaired::OldRefused(r)),
        Ok(found) => new_answer(old, new, pairing, found.count),
    }
}

// The clause that an entry breaks, of two accepted programs.
fn clause_of(
    p: &[u8],
    q: &[u8],
    pairing: &[u16],
    i: usize,
    olds: usize,
    count: usize,
) -> Option<Clause>
    requires { Accepted p.now × Accepted q.now × (olds ≡ nodes p.now) × (count ≡ nodes q.now) }
    ensures { number_in result ≡ clause_of p.now q.now pairing.now i (Ok tt) (Ok tt) }
{
    if i >= count {
        return None;
    }
    let mut ends: [u16; 1008] = [0; 1008];
    lead_all(p, &mut ends, olds);
    entry_broken(p, q, &ends, pairing, olds, count, i)
}

// The same, the new program's verdict first.
fn clause_by(p: &[u8], q: &[u8], pairing: &[u16], i: usize, olds: usize) -> Option<Clause>
    requires { Accepted p.now × (olds ≡ nodes p.now) }
    ensures { number_in result ≡ clause_of p.now q.now pairing.now i (Ok tt) (program_verdict q.now) }
{
    match judge(q) {
        Err(_) => None,
        Ok(found) => clause_of(p, q, pairing, i, olds, found.count),
    }
}

// Which clause of document 02's sentence an entry breaks first (specs/Clauses of crate dropped); none where it is right, or where there is
// none to judge.
pub fn clause(old: &[u8], new: &[u8], pairing: &[u16], entry: usize) -> Option<Clause>
    ensures { number_in result ≡ clause_call old.now new.now pairing.now entry }
{
    match judge(old) {
        Err(_) => None,
        Ok(found) => clause_by(old, new, pairing, entry, found.count),
    }
}
