// Places where something is wrong, as numbers, so that a recursion answers one in a register: the smaller of two, a place unless it is right or
// if it is wrong, and the place itself.
#![tactic(auto)]

ghost use Rattle.std.specs.Prelude.{◌≡◌, ◌<◌};
ghost use Rattle.rules.specs.Places.{sooner as soonerOf, wrong_unless, wrong_if};
ghost use Rattle.places.specs.Numbers.{place_in};

// No place: above every node's number.
pub const NOWHERE: u32 = 65535;

// The smaller of two places, where there is one.
pub fn sooner(x: u32, y: u32) -> u32
    ensures { place_in result ≡ soonerOf (place_in x) (place_in y) }
{
    if x <= y { x } else { y }
}

// A wrong place n, unless it is right.
pub fn wrong_unless(right: bool, n: usize) -> u32
    requires { n < 1008 }
    ensures { place_in result ≡ wrong_unless right n }
{
    if right { NOWHERE } else { n as u32 }
}

// A place n, if its rule is broken.
pub fn wrong_if(wrong: bool, n: usize) -> u32
    requires { n < 1008 }
    ensures { place_in result ≡ wrong_if wrong n }
{
    if wrong { n as u32 } else { NOWHERE }
}

// The place that a number stands for.
pub fn place(m: u32) -> Option<u32>
    ensures { result ≡ place_in m }
{
    if m < NOWHERE { Some(m) } else { None }
}
