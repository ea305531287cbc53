// Code 8: a let's definition never needs the let's own variable at once. One pass, which visits each node once: while it is in a
// let's definition, the let is marked with the number of the region that the definition is in, in lent marks set and put back.
// A region is what is needed at once with its top node; a delay's signal and an event are regions of their own.
#![tactic(auto)]

ghost use Rattle.std.specs.Prelude.{◌≡◌, ◌+◌, ◌-◌, ◌<◌, length};
ghost use Rattle.rules.specs.Layout.{nodes};
ghost use Rattle.rules.specs.Kinds.{is_expression, is_signal, is_branch, is_case};
ghost use Rattle.rules.specs.Places.{wrong_if};
ghost use Rattle.rules.specs.Tree.{expr_at, signal_at, branches_at, cases_at};
ghost use Rattle.rules.specs.Ready.{ready_c, ready_fault};
ghost use Rattle.rules.specs.Shaped.{NodeOf};
ghost use Rattle.places.specs.Numbers.{place_in};
ghost use Rattle.ready.specs.Found.{adding, found_e, found_s, found_b};
ghost use Rattle.ready.specs.Regions.{marked_in, Entered};

use places::{NOWHERE, place, sooner, wrong_if};
use table::{LAST, node};

// The let x, if its definition is around in this region; by all marks as a slice, whose length is told in the proof.
fn needed(marks: &[u16; 1008], region: usize, x: usize) -> u32
    requires { 0 < region }
    ensures { place_in result ≡ wrong_if (marked_in marks.now region x) x }
{
    let all = &marks[..];
    if x < all.len() {
        let own = all[x] as usize;
        return wrong_if(own == region, x);
    }
    NOWHERE
}

// What pass_e finds in expression i, as a part: a variable or a constant is answered here, without calling it.
#[cycle(leaf_pass_e)]
fn leaf(p: &&[u8], marks: &[u16; 1008], region: usize, i: usize) -> u32
    requires { Entered is_expression p.now.now marks.now region i }
    ensures { place_in result ≡ found_e (marked_in marks.now region) (expr_at p.now.now i) }
{
    let n = node(*p, i);
    let k = n.kind;
    match k {
        16 => needed(marks, region, n.a),
        17 => NOWHERE,
        _ => pass_e(p, marks, region, i),
    }
}

// The smallest let marked with the region that expression i needs at once.
#[cycle(leaf_pass_e)]
fn pass_e(p: &&[u8], marks: &[u16; 1008], region: usize, i: usize) -> u32
    requires { Entered is_expression p.now.now marks.now region i }
    ensures { place_in result ≡ found_e (marked_in marks.now region) (expr_at p.now.now i) }
{
    let n = node(*p, i);
    let k = n.kind;
    match k {
        16 => needed(marks, region, n.a),
        17 => NOWHERE,
        24 => leaf(p, marks, region, n.a),
        27 => {
            let test = leaf(p, marks, region, n.a);
            let x = leaf(p, marks, region, n.b);
            let y = leaf(p, marks, region, n.c);
            sooner(test, sooner(x, y))
        }
        28 => leaf(p, marks, region, n.a),
        29 => {
            let m = leaf(p, marks, region, n.a);
            let x = leaf(p, marks, region, n.b);
            let y = leaf(p, marks, region, n.c);
            sooner(m, sooner(x, y))
        }
        _ => {
            let x = leaf(p, marks, region, n.a);
            let y = leaf(p, marks, region, n.b);
            sooner(x, y)
        }
    }
}

// The same of signal i, and its lets that are not ready.
#[cycle(inside_pass_b_pass_c_pass_s)]
fn pass_s(p: &&[u8], marks: &mut [u16; 1008], region: usize, i: usize) -> u32
    requires { Entered is_signal p.now.now marks.old region i }
    ensures { (place_in result ≡ found_s (marked_in marks.old region) (signal_at p.now.now i)) × (marks.new ≡ marks.old) }
{
    let n = node(*p, i);
    let k = n.kind;
    match k {
        1 => NOWHERE,
        3 => pass_e(p, marks, region, n.a),
        4 => {
            let apart = n.a + 1;
            pass_s(p, marks, apart, n.a)
        }
        5 => {
            let d = inside(p, marks, region, i, n.a);
            let b = pass_s(p, marks, region, n.b);
            sooner(d, b)
        }
        6 => {
            let x = pass_s(p, marks, region, n.a);
            let e = pass_s(p, marks, n.b + 1, n.b);
            let y = pass_s(p, marks, region, n.c);
            sooner(x, sooner(e, y))
        }
        7 => {
            let body = pass_s(p, marks, region, n.a);
            let brs = pass_b(p, marks, region, n.b);
            sooner(body, brs)
        }
        8 => {
            let s = pass_s(p, marks, region, n.a);
            let cases = pass_c(p, marks, n.b);
            sooner(s, cases)
        }
        _ => NOWHERE,
    }
}

// Signal k, in the definition of let i.
#[cycle(inside_pass_b_pass_c_pass_s)]
fn inside(p: &&[u8], marks: &mut [u16; 1008], region: usize, i: usize, k: usize) -> u32
    requires { Entered is_signal p.now.now marks.old region k × (i < length marks.old) }
    ensures { (place_in result ≡ found_s (adding i (marked_in marks.old region)) (signal_at p.now.now k)) × (marks.new ≡ marks.old) }
{
    let old = marks[i];
    marks[i] = region as u16;
    let r = pass_s(p, marks, region, k);
    marks[i] = old;
    r
}

// The list of branches at node j.
#[cycle(inside_pass_b_pass_c_pass_s)]
fn pass_b(p: &&[u8], marks: &mut [u16; 1008], region: usize, j: usize) -> u32
    requires { Entered is_branch p.now.now marks.old region j }
    ensures { (place_in result ≡ found_b (marked_in marks.old region) (branches_at p.now.now j)) × (marks.new ≡ marks.old) }
{
    let n = node(*p, j);
    let body = pass_s(p, marks, region, n.a);
    if n.b == LAST {
        return sooner(body, NOWHERE);
    }
    let rest = pass_b(p, marks, region, n.b);
    sooner(body, rest)
}

// The list of cases at node j: each event is a region of its own.
#[cycle(inside_pass_b_pass_c_pass_s)]
fn pass_c(p: &&[u8], marks: &mut [u16; 1008], j: usize) -> u32
    requires { Entered is_case p.now.now marks.old (j + 1) j }
    ensures { (place_in result ≡ ready_c (cases_at p.now.now j)) × (marks.new ≡ marks.old) }
{
    let n = node(*p, j);
    let event = pass_s(p, marks, n.a + 1, n.a);
    if n.b == LAST {
        return sooner(event, NOWHERE);
    }
    let rest = pass_c(p, marks, n.b);
    sooner(event, rest)
}

// The smallest let that is not ready, of a program whose root is a signal: above it no let is marked.
pub fn ready_fault(p: &[u8], count: usize) -> Option<u32>
    requires { (count ≡ nodes p.now) × (0 < count) × NodeOf is_signal p.now (count - 1) }
    ensures { result ≡ ready_fault p.now }
{
    let mut marks: [u16; 1008] = [0; 1008];
    place(pass_s(&p, &mut marks, count, count - 1))
}
