// A field of a new node beside the same field of its old one: which clause of request n's sentence it breaks.
#![tactic(auto)]

ghost use Rattle.std.specs.Prelude.{◌≡◌, Bool, ◌≤◌, ◌<◌, eqb, ltb, length};
ghost use Rattle.rules.specs.Bytes.{◌and◌};
ghost use Rattle.rules.specs.Layout.{nodes};
ghost use Rattle.dropped.specs.Pairing.{old_of, reaches};
ghost use Rattle.dropped.specs.Clauses.{unless as unlessOf, earlier as earlierOf, next_broken, number_of, number_in};
ghost use Rattle.reaching.specs.Leads.{Leads};

use dropped::Clause;
use kinds::both;
use table::LAST;

// A clause that is broken unless a test holds.
pub fn unless(right: bool, clause: Clause) -> Option<Clause>
    ensures { number_in result ≡ unlessOf right (number_of clause) }
{
    if right { None } else { Some(clause) }
}

// The first of two clauses that may be broken.
pub fn earlier(a: Option<Clause>, b: Option<Clause>) -> Option<Clause>
    ensures { number_in result ≡ earlierOf (number_in a) (number_in b) }
{
    let Some(x) = a else {
        return b;
    };
    let Some(y) = b else {
        return a;
    };
    if y.number() < x.number() { b } else { a }
}

// The entry of new node i; 65535 where there is none.
pub fn old_of(pairing: &[u16], i: usize) -> usize
    ensures { result ≡ old_of pairing.now i }
{
    if i < pairing.len() {
        pairing[i] as usize
    } else {
        65535
    }
}

// Old node y is reached from old node x through the bodies of zero or more lets: it is no larger and leads to the same node. (Each node is
// named once, so that of two nodes that lead to the same one the smaller is on the way of the larger.)
pub fn reached(p: &[u8], ends: &[u16], x: usize, y: usize) -> bool
    requires { Leads p.now ends.now × (x < nodes p.now) }
    ensures { result ≡ reaches p.now x y }
{
    if y <= x { ends[x] == ends[y] } else { false }
}

// A field x of a new node that names a child, beside the same field y of its old one.
pub fn child_broken(
    p: &[u8],
    ends: &[u16],
    pairing: &[u16],
    child: Clause,
    x: usize,
    y: usize,
) -> Option<Clause>
    requires { Leads p.now ends.now × (y < nodes p.now) }
    ensures { number_in result ≡ unlessOf (reaches p.now y (old_of pairing.now x)) (number_of child) }
{
    let z = old_of(pairing, x);
    unless(reached(p, ends, y, z), child)
}

// The same for a field that may name none: there is a next exactly where the old node has one.
pub fn next_broken(
    p: &[u8],
    ends: &[u16],
    pairing: &[u16],
    child: Clause,
    x: usize,
    y: usize,
) -> Option<Clause>
    requires { Leads p.now ends.now × ((y ≡ 65535 → ⊥) → y < nodes p.now) }
    ensures { number_in result ≡ next_broken p.now (old_of pairing.now) (number_of child) x y }
{
    if x == LAST {
        return unless(y == LAST, Clause::Next);
    }
    if y == LAST {
        return Some(Clause::Next);
    }
    child_broken(p, ends, pairing, child, x, y)
}

// A binder or target x of a new node, beside the old one, y.
pub fn named_broken(pairing: &[u16], count: usize, x: usize, y: usize) -> Option<Clause>
    ensures { number_in result ≡ unlessOf (ltb x count and eqb (old_of pairing.now x) y) 7 }
{
    let z = old_of(pairing, x);
    unless(both(x < count, z == y), Clause::Named)
}
