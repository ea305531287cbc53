// Code 5: the shape.
#![tactic(auto)]

ghost use Rattle.std.specs.Prelude.{◌≡◌, Bool, not, ◌+◌, ◌*◌, ◌≤◌, ◌<◌, eqb, length, get_or, replicate};
ghost use Rattle.rules.specs.Bytes.{◌and◌, ◌or◌, first};
ghost use Rattle.rules.specs.Layout.{nodes, records};
ghost use Rattle.rules.specs.Kinds.{is_signal};
ghost use Rattle.rules.specs.Shape.{is_child, may_be, may_stop, child_wrong, children_wrong, shape_wrong, named};
ghost use Rattle.shape.specs.Counts.{more as moreOf, counted as countedOf, counted_in, marked_to, mark_of, last_wrong, Sized};

use kinds::{a_in, b_in, both, c_in, either, is_child, is_signal, may_be, may_stop, row_of};
use rules::Field;
use table::{LAST, node};

// The child x that a field of node i names is out of range or of the wrong sort.
fn child_wrong(p: &[u8], i: usize, f: Field, x: usize) -> bool
    requires { (i < records p.now) × (i < 1008) }
    ensures { result ≡ child_wrong p.now i f x }
{
    if !is_child(f) {
        return false;
    }
    if both(may_stop(f), x == LAST) {
        return false;
    }
    if x < i {
        let n = node(p, x);
        return !may_be(f, n.kind);
    }
    true
}

// One more, up to 2: whether a node is named once is all that is asked.
fn more(c: u8) -> u8
    ensures { result ≡ moreOf c }
{
    if c < 2 { c + 1 } else { 2 }
}

// A field that holds x, counted where it names a child.
fn counted(counts: &mut [u8], f: Field, x: usize)
    ensures { counts.new ≡ countedOf counts.old f x }
{
    if is_child(f) {
        if x < counts.len() {
            counts[x] = more(counts[x]);
        }
    }
}

// A child of node i, which a field names: it is counted, and whether it is wrong is answered.
fn one(p: &[u8], counts: &mut [u8], i: usize, f: Field, x: usize) -> bool
    requires { (i < records p.now) × (i < 1008) }
    ensures { (result ≡ child_wrong p.now i f x) × (counts.new ≡ countedOf counts.old f x) }
{
    counted(counts, f, x);
    child_wrong(p, i, f, x)
}

// The children of node i, by the row of its kind: all are counted, and whether one is wrong is answered.
fn children(p: &[u8], counts: &mut [u8], i: usize) -> bool
    requires { (i < records p.now) × (i < 1008) }
    ensures { (result ≡ children_wrong p.now i) × (counts.new ≡ counted_in p.now counts.old i) }
{
    let n = node(p, i);
    let row = row_of(n.kind);
    let a = one(p, counts, i, a_in(row), n.a);
    let b = one(p, counts, i, b_in(row), n.b);
    let c = one(p, counts, i, c_in(row), n.c);
    either(either(a, b), c)
}

// All nodes in one pass: their children are counted, and a node is marked with 2 where a child of its own is wrong. The answer is whether
// one of the last node's is.
fn count_all(p: &[u8], counts: &mut [u8], count: usize) -> bool
    requires { (count ≤ records p.now) × (count ≤ 1008) × (count ≤ length counts.old) }
    ensures { (counts.new ≡ marked_to p.now counts.old count) × (result ≡ last_wrong p.now count) }
{
    let mut wrong = false;
    for m in 0..count {
        wrong = children(p, counts, m);
        if wrong {
            counts[m] = 2;
        }
    }
    wrong
}

// Code 5 at node i, with its mark and whether a child of the last node is wrong.
fn shape_wrong(p: &[u8], i: usize, count: usize, mark: u8, last: bool) -> bool
    requires { Sized p.now count × (i < count) × (mark ≡ mark_of p.now i) × (last ≡ last_wrong p.now count) }
    ensures { result ≡ shape_wrong p.now i }
{
    if i + 1 == count {
        let n = node(p, i);
        return either(last, !is_signal(n.kind));
    }
    mark != 1
}

// The first node whose shape is wrong.
pub fn first_shape(p: &[u8], count: usize) -> Option<u32>
    requires { Sized p.now count }
    ensures { result ≡ first (shape_wrong p.now) (nodes p.now) }
{
    let mut counts: [u8; 1008] = [0; 1008];
    let last = count_all(p, &mut counts, count);
    for j in 0..count {
        if shape_wrong(p, j, count, counts[j], last) {
            return Some(j as u32);
        }
    }
    None
}
