// Code 6: scope, with the binders in scope marked in lent bytes and the groups upward in lent numbers, both set and put back.
#![tactic(auto)]

ghost use Rattle.std.specs.Prelude.{◌≡◌, Bool, ◌+◌, ◌-◌, ◌*◌, ◌≤◌, ◌<◌, length};
ghost use Rattle.rules.specs.Layout.{nodes, edition, kind_at, a_at, b_at};
ghost use Rattle.rules.specs.Kinds.{is_expression, is_signal, is_branch, is_case};
ghost use Rattle.rules.specs.Places.{sooner as soonerOf, wrong_unless};
ghost use Rattle.rules.specs.Tree.{expr_at, signal_at, branches_at, cases_at};
ghost use Rattle.rules.specs.Scope.{mark, is_marked, is_offered, scope_e, scope_s, scope_b, scope_c, scope_fault};
ghost use Rattle.rules.specs.Shaped.{NodeOf};
ghost use Rattle.places.specs.Numbers.{place_in};
ghost use Rattle.cells.specs.Indexed.{ListedOnce};
ghost use Rattle.scope.specs.Open.{offers_below, limit_below};
ghost use Rattle.scope.specs.Doors.{Doors};

use cells::{index_branches, kind_of, number_of};
use places::{NOWHERE, place, sooner, wrong_unless};
use table::{LAST, node};

// Whether binder n is marked; by the whole array as a slice, whose length is told in the proof.
fn marked(marks: &[u8; 1008], n: usize) -> bool
    ensures { result ≡ is_marked marks.now n }
{
    let all = &marks[..];
    if n < all.len() {
        return all[n] == 1;
    }
    false
}

// Expression i as a child: a variable or a constant is answered at once, without a call.
#[cycle(inside_e_leaf_scope_e)]
fn leaf(p: &&[u8], marks: &mut [u8; 1008], i: usize) -> u32
    requires { NodeOf is_expression p.now.now i }
    ensures { (place_in result ≡ scope_e marks.old (expr_at p.now.now i)) × (marks.new ≡ marks.old) }
{
    let n = node(*p, i);
    let k = n.kind;
    match k {
        16 => wrong_unless(marked(marks, n.a), i),
        17 => NOWHERE,
        _ => scope_e(p, marks, i),
    }
}

#[cycle(inside_e_leaf_scope_e)]
pub fn scope_e(p: &&[u8], marks: &mut [u8; 1008], i: usize) -> u32
    requires { NodeOf is_expression p.now.now i }
    ensures { (place_in result ≡ scope_e marks.old (expr_at p.now.now i)) × (marks.new ≡ marks.old) }
{
    let n = node(*p, i);
    let k = n.kind;
    match k {
        16 => wrong_unless(marked(marks, n.a), i),
        17 => NOWHERE,
        24 => leaf(p, marks, n.a),
        27 => {
            let test = leaf(p, marks, n.a);
            let x = leaf(p, marks, n.b);
            let y = leaf(p, marks, n.c);
            sooner(test, sooner(x, y))
        }
        28 => leaf(p, marks, n.a),
        29 => {
            let m = leaf(p, marks, n.a);
            let x = leaf(p, marks, n.b);
            let y = inside_e(p, marks, i, n.c);
            sooner(m, sooner(x, y))
        }
        _ => {
            let x = leaf(p, marks, n.a);
            let y = leaf(p, marks, n.b);
            sooner(x, y)
        }
    }
}

// Expression k, below binder i.
#[cycle(inside_e_leaf_scope_e)]
fn inside_e(p: &&[u8], marks: &mut [u8; 1008], i: usize, k: usize) -> u32
    requires { NodeOf is_expression p.now.now k × (i < 1008) }
    ensures { (place_in result ≡ scope_e (mark marks.old i) (expr_at p.now.now k)) × (marks.new ≡ marks.old) }
{
    let old = marks[i];
    marks[i] = 1;
    let r = scope_e(p, marks, k);
    marks[i] = old;
    r
}

// Whether a case may leave for branch k: the door of its list is open, of a group below the limit.
fn offered(
    p: &&[u8],
    homes: &[u16; 1008],
    doors: &[u16; 1008],
    limit: usize,
    j: usize,
    k: usize,
) -> bool
    requires { NodeOf is_case p.now.now j × Doors p.now.now homes.now doors.now limit j }
    ensures { result ≡ is_offered k (offers_below p.now.now doors.now limit) }
{
    if limit <= k {
        return false;
    }
    if kind_of(*p, k) != 9 {
        return false;
    }
    let first = number_of(homes, k);
    if first >= 1008 {
        return false;
    }
    let door = number_of(doors, first);
    if door == 0 {
        return false;
    }
    door <= limit
}

// The limit below group i: in edition one only the group itself counts.
fn within(p: &[u8], i: usize, limit: usize) -> usize
    requires { (4 ≤ length p.now) × (i < 1008) }
    ensures { result ≡ limit_below (edition p.now) i limit }
{
    if p[3] == 0 {
        return i + 1;
    }
    limit
}

// Signal i; a case may leave for the open groups below the limit.
#[cycle(inside_g_inside_s_scope_b_scope_c_scope_s)]
pub fn scope_s(
    p: &&[u8],
    homes: &[u16; 1008],
    marks: &mut [u8; 1008],
    doors: &mut [u16; 1008],
    i: usize,
    limit: usize,
) -> u32
    requires { NodeOf is_signal p.now.now i × Doors p.now.now homes.now doors.old limit i }
    ensures { (place_in result ≡ scope_s (edition p.now.now) marks.old (offers_below p.now.now doors.old limit) (signal_at p.now.now i)) × (marks.new ≡ marks.old) × (doors.new ≡ doors.old) }
{
    let n = node(*p, i);
    let k = n.kind;
    match k {
        3 => scope_e(p, marks, n.a),
        4 => scope_s(p, homes, marks, doors, n.a, i),
        5 => {
            let d = inside_s(p, homes, marks, doors, i, n.a, i);
            let b = inside_s(p, homes, marks, doors, i, n.b, limit);
            sooner(d, b)
        }
        6 => {
            let x = scope_s(p, homes, marks, doors, n.a, i);
            let e = scope_s(p, homes, marks, doors, n.b, i);
            let y = inside_s(p, homes, marks, doors, i, n.c, i);
            sooner(x, sooner(e, y))
        }
        7 => inside_g(p, homes, marks, doors, i, n.a, n.b, limit),
        8 => {
            let s = scope_s(p, homes, marks, doors, n.a, i);
            let cases = scope_c(p, homes, marks, doors, n.b, limit);
            sooner(s, cases)
        }
        _ => NOWHERE,
    }
}

// Signal k, below binder i.
#[cycle(inside_g_inside_s_scope_b_scope_c_scope_s)]
fn inside_s(
    p: &&[u8],
    homes: &[u16; 1008],
    marks: &mut [u8; 1008],
    doors: &mut [u16; 1008],
    i: usize,
    k: usize,
    limit: usize,
) -> u32
    requires { NodeOf is_signal p.now.now k × Doors p.now.now homes.now doors.old limit k × (i < 1008) }
    ensures { (place_in result ≡ scope_s (edition p.now.now) (mark marks.old i) (offers_below p.now.now doors.old limit) (signal_at p.now.now k)) × (marks.new ≡ marks.old) × (doors.new ≡ doors.old) }
{
    let old = marks[i];
    marks[i] = 1;
    let r = scope_s(p, homes, marks, doors, k, limit);
    marks[i] = old;
    r
}

// The parts of group i, with its door open: the body, and the branches from the first on.
#[cycle(inside_g_inside_s_scope_b_scope_c_scope_s)]
fn inside_g(
    p: &&[u8],
    homes: &[u16; 1008],
    marks: &mut [u8; 1008],
    doors: &mut [u16; 1008],
    i: usize,
    body: usize,
    first: usize,
    limit: usize,
) -> u32
    requires { NodeOf is_signal p.now.now i × (kind_at p.now.now i ≡ 7) × (body ≡ a_at p.now.now i) × (first ≡ b_at p.now.now i) × Doors p.now.now homes.now doors.old limit i }
    ensures { (place_in result ≡ scope_s (edition p.now.now) marks.old (offers_below p.now.now doors.old limit) (signal_at p.now.now i)) × (marks.new ≡ marks.old) × (doors.new ≡ doors.old) }
{
    let old = doors[first];
    doors[first] = i as u16 + 1;
    let below = within(*p, i, limit);
    let b = scope_s(p, homes, marks, doors, body, below);
    let r = scope_b(p, homes, marks, doors, first, below);
    doors[first] = old;
    sooner(b, r)
}

#[cycle(inside_g_inside_s_scope_b_scope_c_scope_s)]
fn scope_b(
    p: &&[u8],
    homes: &[u16; 1008],
    marks: &mut [u8; 1008],
    doors: &mut [u16; 1008],
    j: usize,
    limit: usize,
) -> u32
    requires { NodeOf is_branch p.now.now j × Doors p.now.now homes.now doors.old limit j }
    ensures { (place_in result ≡ scope_b (edition p.now.now) marks.old (offers_below p.now.now doors.old limit) (branches_at p.now.now j)) × (marks.new ≡ marks.old) × (doors.new ≡ doors.old) }
{
    let n = node(*p, j);
    let body = inside_s(p, homes, marks, doors, j, n.a, limit);
    if n.b == LAST {
        return sooner(body, NOWHERE);
    }
    let rest = scope_b(p, homes, marks, doors, n.b, limit);
    sooner(body, rest)
}

#[cycle(inside_g_inside_s_scope_b_scope_c_scope_s)]
fn scope_c(
    p: &&[u8],
    homes: &[u16; 1008],
    marks: &mut [u8; 1008],
    doors: &mut [u16; 1008],
    j: usize,
    limit: usize,
) -> u32
    requires { NodeOf is_case p.now.now j × Doors p.now.now homes.now doors.old limit j }
    ensures { (place_in result ≡ scope_c (edition p.now.now) marks.old (offers_below p.now.now doors.old limit) (cases_at p.now.now j)) × (marks.new ≡ marks.old) × (doors.new ≡ doors.old) }
{
    let n = node(*p, j);
    let here = wrong_unless(offered(p, homes, doors, limit, j, n.c), j);
    let event = scope_s(p, homes, marks, doors, n.a, j);
    if n.b == LAST {
        return sooner(here, sooner(event, NOWHERE));
    }
    let rest = scope_c(p, homes, marks, doors, n.b, limit);
    sooner(here, sooner(event, rest))
}

// The smallest variable or case out of scope, of a program whose root is a signal: above it no binder is marked, and no group is left for.
pub fn scope_fault(p: &[u8], count: usize) -> Option<u32>
    requires { (count ≡ nodes p.now) × (0 < count) × NodeOf is_signal p.now (count - 1) × ListedOnce p.now }
    ensures { result ≡ scope_fault p.now }
{
    let mut marks: [u8; 1008] = [0; 1008];
    let mut homes: [u16; 1008] = [0; 1008];
    let mut doors: [u16; 1008] = [0; 1008];
    index_branches(p, &mut homes, count);
    place(scope_s(&p, &homes, &mut marks, &mut doors, count - 1, count))
}
