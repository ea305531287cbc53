// The fields of a kind that are for a child, by ranges of kinds, and those by which a chain is continued.
#![tactic(auto)]

ghost use Rattle.std.specs.Prelude.{◌≡◌, Bool};
ghost use Rattle.rules.specs.Kinds.{fields_of};
ghost use Rattle.rules.specs.Shape.{is_child};
ghost use Rattle.chains.specs.Chain.{a_field, b_field, c_field, enters};

use kinds::{both, either};

// The fields of a kind that are for a child: a,
pub fn child_a(k: u8) -> bool
    ensures { result ≡ is_child (fields_of k).a }
{
    either(both(3 <= k, k <= 10), both(18 <= k, k <= 29))
}

// b,
pub fn child_b(k: u8) -> bool
    ensures { result ≡ is_child (fields_of k).b }
{
    let operations = either(both(18 <= k, k <= 23), both(25 <= k, k <= 27));
    either(either(both(5 <= k, k <= 10), operations), k == 29)
}

// and c.
pub fn child_c(k: u8) -> bool
    ensures { result ≡ is_child (fields_of k).c }
{
    either(either(k == 6, k == 27), k == 29)
}

// The fields by which a node of kind k is left for a child on the way of a chain: a, but of a delay,
pub fn enters_a(k: u8) -> bool
    ensures { result ≡ enters k a_field }
{
    both(child_a(k), k != 4)
}

// b, but of a switch and of an until,
pub fn enters_b(k: u8) -> bool
    ensures { result ≡ enters k b_field }
{
    both(child_b(k), !either(k == 6, k == 8))
}

// and c.
pub fn enters_c(k: u8) -> bool
    ensures { result ≡ enters k c_field }
{
    child_c(k)
}
