// Code 7: the type of each node and the smallest node whose own rule breaks, in one recursion over children.
#![tactic(auto)]

ghost use Rattle.std.specs.Prelude.{◌≡◌, Bool, ◌-◌, ◌≤◌, ◌<◌, eqb};
ghost use Rattle.rules.specs.Bytes.{◌and◌};
ghost use Rattle.rules.specs.Values.{bool_t, maybe_of, is_plain, type_in};
ghost use Rattle.rules.specs.Operations.{operand_type, result_type};
ghost use Rattle.rules.specs.Layout.{channel_type, nodes};
ghost use Rattle.rules.specs.Kinds.{is_expression, is_signal, is_branch, is_case};
ghost use Rattle.rules.specs.Places.{sooner as soonerOf, wrong_unless};
ghost use Rattle.rules.specs.Tree.{expr_at, signal_at, branches_at, cases_at, root};
ghost use Rattle.rules.specs.Typing.{just_type, type_e, types_e, type_s, types_s, types_b, types_c, bodies_have, type_fault};
ghost use Rattle.rules.specs.Shaped.{NodeOf};
ghost use Rattle.places.specs.Numbers.{place_in};
ghost use Rattle.typing.specs.Numbers.{place_below, same_in};

use kinds::both;
use places::{NOWHERE, place, sooner, wrong_unless};
use rules::{BOOL, INT, MAYBE};
use table::{LAST, declared, node};
use values::{MAYBE_INT, is_plain, type_in};

// The type of the root, and the smallest wrong place.
#[derive(Clone, Copy)]
pub struct Typed {
    pub ty: u8,
    pub place: Option<u32>,
}

// A type and the number of a place, as one number, so that a recursion answers both in a register.
fn typed_at(t: u8, at: u32) -> u64
    ensures { (type_in result ≡ t) × (place_below result ≡ place_in at) }
{
    (t as u64) + 256 * (at as u64)
}

// Its place, as a number.
fn place_in(m: u64) -> u32
    ensures { place_in result ≡ place_below m }
{
    (m / 256 % 4294967296) as u32
}

// Whether the bodies of a list have a type, and the number of a place, as one number.
fn bodies(same: bool, at: u32) -> u64
    ensures { (same_in result ≡ same) × (place_below result ≡ place_in at) }
{
    if same {
        return typed_at(1, at);
    }
    typed_at(0, at)
}

// Whether they have it.
fn same_in(m: u64) -> bool
    ensures { result ≡ same_in m }
{
    type_in(m) == 1
}

fn wide(t: u8) -> u32
    ensures { (result ≡ t) × (result < 256) }
{
    t as u32
}

// x is maybe of t.
fn is_maybe(x: u8, t: u8) -> bool
    ensures { result ≡ eqb x (maybe_of t) }
{
    wide(x) == wide(t) + wide(MAYBE)
}

fn just_type(t: u8) -> u8
    ensures { result ≡ just_type t }
{
    if is_plain(t) { t + MAYBE } else { t }
}

fn operand_type(k: u8) -> u8
    ensures { result ≡ operand_type k }
{
    if k <= 23 { INT } else { BOOL }
}

fn result_type(k: u8) -> u8
    ensures { result ≡ result_type k }
{
    if k <= 20 {
        INT
    } else {
        if k == 21 { MAYBE_INT } else { BOOL }
    }
}

fn channel_type(c: usize) -> u8
    ensures { result ≡ channel_type c }
{
    if c < 4 { INT } else { MAYBE_INT }
}

// A node whose own rule holds or not, over two places below it.
fn under(right: bool, i: usize, x: u32, y: u32) -> u32
    requires { i < 1008 }
    ensures { place_in result ≡ soonerOf (wrong_unless right i) (soonerOf (place_in x) (place_in y)) }
{
    let here = wrong_unless(right, i);
    let below = sooner(x, y);
    sooner(here, below)
}

fn operation(i: usize, k: u8, x: u64, y: u64) -> u64
    requires { i < 1008 }
    ensures { (type_in result ≡ result_type k) × (place_below result ≡ soonerOf (wrong_unless (eqb (type_in x) (operand_type k) and eqb (type_in y) (operand_type k)) i) (soonerOf (place_below x) (place_below y))) }
{
    let t = operand_type(k);
    let right = both(type_in(x) == t, type_in(y) == t);
    let x_at = place_in(x);
    let y_at = place_in(y);
    typed_at(result_type(k), under(right, i, x_at, y_at))
}

fn negation(i: usize, x: u64) -> u64
    requires { i < 1008 }
    ensures { (type_in result ≡ bool_t) × (place_below result ≡ soonerOf (wrong_unless (eqb (type_in x) bool_t) i) (place_below x)) }
{
    let here = wrong_unless(type_in(x) == BOOL, i);
    let x_at = place_in(x);
    typed_at(BOOL, sooner(here, x_at))
}

fn choice(i: usize, test: u64, x: u64, y: u64) -> u64
    requires { i < 1008 }
    ensures { (type_in result ≡ type_in x) × (place_below result ≡ soonerOf (wrong_unless (eqb (type_in test) bool_t and eqb (type_in x) (type_in y)) i) (soonerOf (place_below test) (soonerOf (place_below x) (place_below y)))) }
{
    let right = both(type_in(test) == BOOL, type_in(x) == type_in(y));
    let x_at = place_in(x);
    let y_at = place_in(y);
    let arms = sooner(x_at, y_at);
    let test_at = place_in(test);
    typed_at(type_in(x), under(right, i, test_at, arms))
}

fn justly(i: usize, x: u64) -> u64
    requires { i < 1008 }
    ensures { (type_in result ≡ just_type (type_in x)) × (place_below result ≡ soonerOf (wrong_unless (is_plain (type_in x)) i) (place_below x)) }
{
    let here = wrong_unless(is_plain(type_in(x)), i);
    let x_at = place_in(x);
    typed_at(just_type(type_in(x)), sooner(here, x_at))
}

fn taking(i: usize, t: u8, m: u64, x: u64, y: u64) -> u64
    requires { i < 1008 }
    ensures { (type_in result ≡ type_in x) × (place_below result ≡ soonerOf (wrong_unless (eqb (type_in m) (maybe_of t) and eqb (type_in x) (type_in y)) i) (soonerOf (place_below m) (soonerOf (place_below x) (place_below y)))) }
{
    let right = both(is_maybe(type_in(m), t), type_in(x) == type_in(y));
    let x_at = place_in(x);
    let y_at = place_in(y);
    let arms = sooner(x_at, y_at);
    let m_at = place_in(m);
    typed_at(type_in(x), under(right, i, m_at, arms))
}

fn delayed(i: usize, t: u8, x: u64) -> u64
    requires { i < 1008 }
    ensures { (type_in result ≡ type_in x) × (place_below result ≡ soonerOf (wrong_unless (eqb (type_in x) t) i) (place_below x)) }
{
    let here = wrong_unless(type_in(x) == t, i);
    let x_at = place_in(x);
    typed_at(type_in(x), sooner(here, x_at))
}

fn letting(i: usize, t: u8, d: u64, b: u64) -> u64
    requires { i < 1008 }
    ensures { (type_in result ≡ type_in b) × (place_below result ≡ soonerOf (wrong_unless (eqb (type_in d) t) i) (soonerOf (place_below d) (place_below b))) }
{
    let d_at = place_in(d);
    let b_at = place_in(b);
    typed_at(type_in(b), under(type_in(d) == t, i, d_at, b_at))
}

fn switching(i: usize, t: u8, x: u64, e: u64, y: u64) -> u64
    requires { i < 1008 }
    ensures { (type_in result ≡ type_in x) × (place_below result ≡ soonerOf (wrong_unless (eqb (type_in e) (maybe_of t) and eqb (type_in x) (type_in y)) i) (soonerOf (place_below x) (soonerOf (place_below e) (place_below y)))) }
{
    let right = both(is_maybe(type_in(e), t), type_in(x) == type_in(y));
    let e_at = place_in(e);
    let y_at = place_in(y);
    let others = sooner(e_at, y_at);
    let x_at = place_in(x);
    typed_at(type_in(x), under(right, i, x_at, others))
}

fn grouping(i: usize, body: u64, brs: u64) -> u64
    requires { i < 1008 }
    ensures { (type_in result ≡ type_in body) × (place_below result ≡ soonerOf (wrong_unless (same_in brs) i) (soonerOf (place_below body) (place_below brs))) }
{
    let body_at = place_in(body);
    let brs_at = place_in(brs);
    typed_at(type_in(body), under(same_in(brs), i, body_at, brs_at))
}

// The type of expression i as a child: a variable or a constant is answered at once, without a call.
#[cycle(leaf_type_e)]
fn leaf(p: &&[u8], i: usize) -> u64
    requires { NodeOf is_expression p.now.now i }
    ensures { (type_in result ≡ type_e (expr_at p.now.now i)) × (place_below result ≡ types_e (expr_at p.now.now i)) }
{
    let n = node(*p, i);
    let k = n.kind;
    match k {
        16 => typed_at(declared(*p, n.a), NOWHERE),
        17 => typed_at(n.ty, NOWHERE),
        _ => type_e(p, i),
    }
}

#[cycle(leaf_type_e)]
pub fn type_e(p: &&[u8], i: usize) -> u64
    requires { NodeOf is_expression p.now.now i }
    ensures { (type_in result ≡ type_e (expr_at p.now.now i)) × (place_below result ≡ types_e (expr_at p.now.now i)) }
{
    let n = node(*p, i);
    let k = n.kind;
    match k {
        16 => typed_at(declared(*p, n.a), NOWHERE),
        17 => typed_at(n.ty, NOWHERE),
        24 => negation(i, leaf(p, n.a)),
        27 => {
            let test = leaf(p, n.a);
            let x = leaf(p, n.b);
            let y = leaf(p, n.c);
            choice(i, test, x, y)
        }
        28 => justly(i, leaf(p, n.a)),
        29 => {
            let m = leaf(p, n.a);
            let x = leaf(p, n.b);
            let y = leaf(p, n.c);
            taking(i, n.ty, m, x, y)
        }
        _ => {
            let x = leaf(p, n.a);
            let y = leaf(p, n.b);
            operation(i, k, x, y)
        }
    }
}

#[cycle(type_b_type_c_type_s)]
pub fn type_s(p: &&[u8], i: usize) -> u64
    requires { NodeOf is_signal p.now.now i }
    ensures { (type_in result ≡ type_s (signal_at p.now.now i)) × (place_below result ≡ types_s (signal_at p.now.now i)) }
{
    let n = node(*p, i);
    let k = n.kind;
    match k {
        1 => typed_at(channel_type(n.a), NOWHERE),
        3 => type_e(p, n.a),
        4 => delayed(i, n.ty, type_s(p, n.a)),
        5 => {
            let d = type_s(p, n.a);
            let b = type_s(p, n.b);
            letting(i, n.ty, d, b)
        }
        6 => {
            let x = type_s(p, n.a);
            let e = type_s(p, n.b);
            let y = type_s(p, n.c);
            switching(i, n.ty, x, e, y)
        }
        7 => {
            let body = type_s(p, n.a);
            let brs = type_b(p, n.b, type_in(body));
            grouping(i, body, brs)
        }
        8 => {
            let s = type_s(p, n.a);
            let cases = type_c(p, n.b);
            let s_at = place_in(s);
            typed_at(type_in(s), sooner(s_at, cases))
        }
        _ => typed_at(INT, NOWHERE),
    }
}

// The list of branches at node j, whose bodies are to have type t.
#[cycle(type_b_type_c_type_s)]
pub fn type_b(p: &&[u8], j: usize, t: u8) -> u64
    requires { NodeOf is_branch p.now.now j }
    ensures { (same_in result ≡ bodies_have t (branches_at p.now.now j)) × (place_below result ≡ types_b (branches_at p.now.now j)) }
{
    let n = node(*p, j);
    let body = type_s(p, n.a);
    let body_at = place_in(body);
    if n.b == LAST {
        return bodies(both(type_in(body) == t, true), sooner(body_at, NOWHERE));
    }
    let rest = type_b(p, n.b, t);
    let rest_at = place_in(rest);
    bodies(
        both(type_in(body) == t, same_in(rest)),
        sooner(body_at, rest_at),
    )
}

// The list of cases at node j.
#[cycle(type_b_type_c_type_s)]
pub fn type_c(p: &&[u8], j: usize) -> u32
    requires { NodeOf is_case p.now.now j }
    ensures { place_in result ≡ types_c (cases_at p.now.now j) }
{
    let n = node(*p, j);
    let event = type_s(p, n.a);
    let right = is_maybe(type_in(event), declared(*p, n.c));
    let event_at = place_in(event);
    if n.b == LAST {
        return under(right, j, event_at, NOWHERE);
    }
    let rest = type_c(p, n.b);
    under(right, j, event_at, rest)
}

// The root's type and the smallest wrong place, of a program whose root is node count - 1.
pub fn type_root(p: &[u8], count: usize) -> Typed
    requires { (count ≡ nodes p.now) × (0 < count) × NodeOf is_signal p.now (count - 1) }
    ensures { (result.ty ≡ type_s (root p.now)) × (result.place ≡ type_fault p.now) }
{
    let root = type_s(&p, count - 1);
    Typed {
        ty: type_in(root),
        place: place(place_in(root)),
    }
}
