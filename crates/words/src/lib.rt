// Arithmetic on 32-bit words, two's complement, held as unsigned numbers.
#![tactic(auto)]

ghost use Rattle.std.specs.Prelude.{◌≡◌, ◌<◌, ◌≤◌, ◌+ℤ◌, ◌-ℤ◌, ◌*ℤ◌, unsigned_abs};
ghost use Rattle.rules.specs.Operations.{number_of, truth_of, leaves_range};
ghost use Rattle.rules.specs.Words.{signed, word_of, outside, sum_of, difference_of, product_of, floor_z, quotient_of, is_less};
ghost use Rattle.words.specs.Leaving.{astride_of};

use rules::{INT, MAYBE, Value};

// Maybe int.
const MAYBE_INT: u8 = MAYBE + INT;

// The product, wrapped.
pub fn times(x: u32, y: u32) -> u32
    ensures { result ≡ product_of x y }
{
    (u64::from(x) * u64::from(y) % 4294967296) as u32
}

// Less, as integers.
pub fn less(x: u32, y: u32) -> bool
    ensures { result ≡ is_less x y }
{
    if x < 2147483648 {
        if y < 2147483648 {
            return x < y;
        }
        return false;
    }
    if y < 2147483648 {
        return true;
    }
    x < y
}

// The integer that a word stands for.
fn integer(x: u32) -> i64
    ensures { result ≡ signed x }
{
    if x < 2147483648 {
        return x as i64;
    }
    x as i64 - 4294967296
}

// The word of an integer.
fn word(q: i64) -> u32
    requires { unsigned_abs q ≤ 2147483648 }
    ensures { result ≡ word_of q }
{
    if q < 0 {
        return (q + 4294967296) as u32;
    }
    q as u32
}

// The quotient, rounded toward minus infinity: one less than the quotient rounded toward zero where that leaves a remainder on the other side of zero than the divisor.
fn rounded_down(a: i64, b: i64) -> i64
    requires { (0 < unsigned_abs b) × (unsigned_abs a ≤ 2147483648) × (unsigned_abs b ≤ 2147483648) }
    ensures { result ≡ floor_z a b }
{
    let q = a / b;
    let r = a % b;
    if 0 < b {
        if r < 0 {
            return q - 1;
        }
        return q;
    }
    if 0 < r {
        return q - 1;
    }
    q
}

// The quotient, rounded toward minus infinity; a zero divisor gives absent.
pub fn divide(x: u32, y: u32) -> Value
    ensures { result ≡ quotient_of x y }
{
    if y == 0 {
        return Value::Absent(MAYBE_INT);
    }
    let a = integer(x);
    let b = integer(y);
    Value::Present(MAYBE_INT, word(rounded_down(a, b)))
}

// A sum, a difference or a product, wrapped, and whether it left the range.
#[derive(Clone, Copy)]
pub struct Worked {
    pub word: u32,
    pub left: bool,
}

// Whether the integers of two words stand on two sides of zero (which counts as not below).
fn astride(x: u32, y: u32) -> bool
    ensures { result ≡ astride_of x y }
{
    if x < 2147483648 {
        return 2147483648 <= y;
    }
    y < 2147483648
}

// Whether an integer is outside the range.
fn is_outside(z: i64) -> bool
    ensures { result ≡ outside z }
{
    if z < 0 {
        return z < -2147483648;
    }
    2147483647 < z
}

// A sum leaves the range where both integers stand on one side of zero, and the wrapped sum on the other.
fn sum(x: u32, y: u32) -> Worked
    ensures { (result.word ≡ sum_of x y) × (result.left ≡ outside (signed x +ℤ signed y)) }
{
    let s = std::num::wrapping_add_u32(x, y);
    let left = !astride(x, y) & astride(x, s);
    Worked {
        word: s,
        left: left,
    }
}

// A difference leaves it where the integers stand on two sides of zero, and the wrapped difference on the second's.
fn difference(x: u32, y: u32) -> Worked
    ensures { (result.word ≡ difference_of x y) × (result.left ≡ outside (signed x -ℤ signed y)) }
{
    let s = std::num::wrapping_sub_u32(x, y);
    let left = astride(x, y) & astride(x, s);
    Worked {
        word: s,
        left: left,
    }
}

// A product is worked out whole: it fits 63 bits.
fn product(x: u32, y: u32) -> Worked
    ensures { (result.word ≡ product_of x y) × (result.left ≡ outside (signed x *ℤ signed y)) }
{
    let exact = integer(x) * integer(y);
    Worked {
        word: times(x, y),
        left: is_outside(exact),
    }
}

// Kinds 18-20: the number, and whether it left the range.
pub fn number(k: u8, x: u32, y: u32) -> Worked
    requires { k ≤ 20 }
    ensures { (result.word ≡ number_of k x y) × (result.left ≡ leaves_range k x y) }
{
    match k {
        18 => sum(x, y),
        19 => difference(x, y),
        _ => product(x, y),
    }
}

// Kind 21: of quotients only -2147483648 by -1 leaves the range.
pub fn quotient_left(x: u32, y: u32) -> bool
    ensures { result ≡ leaves_range 21 x y }
{
    x == 2147483648 && y == 4294967295
}

// Kinds 22, 23, 25 and 26: the truth value.
pub fn test(k: u8, x: u32, y: u32) -> bool
    ensures { result ≡ truth_of k x y }
{
    match k {
        22 => less(x, y),
        23 => x == y,
        25 => x == 1 && y == 1,
        _ => x == 1 || y == 1,
    }
}
