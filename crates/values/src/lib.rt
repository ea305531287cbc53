// Values as one number: made by their constructors and packed, and unpacked.
#![tactic(auto)]

ghost use Rattle.std.specs.Prelude.{◌≡◌, ◌+◌, ◌*◌, ◌<◌};
ghost use Rattle.rules.specs.Values.{is_plain, is_maybe, value_fits, value_from, packed, unpacked, type_in, present_in, word_in};

use rules::{BOOL, INT, MAYBE, UNIT, Value};

// Maybe unit, maybe bool, maybe int.
pub const MAYBE_UNIT: u8 = MAYBE + UNIT;

pub const MAYBE_BOOL: u8 = MAYBE + BOOL;

pub const MAYBE_INT: u8 = MAYBE + INT;

// Types 1-3.
pub fn is_plain(t: u8) -> bool
    ensures { result ≡ is_plain t }
{
    matches!(t, UNIT..=INT)
}

// Types 5-7.
pub fn is_maybe(t: u8) -> bool
    ensures { result ≡ is_maybe t }
{
    matches!(t, MAYBE_UNIT..=MAYBE_INT)
}

// A present byte and a word are those of a value of type t. (Most values are ints, of which only the present byte is asked.)
pub fn value_fits(t: u8, present: u64, word: u64) -> bool
    ensures { result ≡ value_fits t present word }
{
    if t == INT {
        return present == 1;
    }
    let there = (present == 1) | ((present == 0) & is_maybe(t));
    let absent = (word == 0) | (present == 1);
    let unit = (word == 0) | !((t == UNIT) | (t == MAYBE_UNIT));
    let truth = (word <= 1) | !((t == BOOL) | (t == MAYBE_BOOL));
    there & absent & unit & truth
}

// A byte as a 64-bit number. (Crate moves calls this and the next for the bound.)
pub fn wide(x: u8) -> u64
    ensures { (result ≡ x) × (result < 256) }
{
    u64::from(x)
}

// A word as a 64-bit number.
pub fn wide_word(x: u32) -> u64
    ensures { (result ≡ x) × (result < 4294967296) }
{
    u64::from(x)
}

// A value as one number: its 8 bytes.
pub fn pack(v: Value) -> u64
    ensures { result ≡ packed v }
{
    match v {
        Value::Plain(t, w) => wide(t) + 256 + 4294967296 * wide_word(w),
        Value::Absent(t) => wide(t),
        Value::Present(t, w) => wide(t) + 256 + 4294967296 * wide_word(w),
    }
}

// The value that a type, a present byte and a word stand for.
pub fn value_from(t: u8, present: usize, word: u32) -> Value
    ensures { result ≡ value_from t present word }
{
    if is_plain(t) {
        return Value::Plain(t, word);
    }
    if present == 0 {
        return Value::Absent(t);
    }
    Value::Present(t, word)
}

// The value that a type, a present byte and a word stand for, as one number.
pub fn pack_from(t: u8, present: usize, word: u32) -> u64
    ensures { result ≡ packed (value_from t present word) }
{
    pack(value_from(t, present, word))
}

// The type byte of a number of 8 bytes.
pub fn type_in(m: u64) -> u8
    ensures { result ≡ type_in m }
{
    (m % 256) as u8
}

// The present byte.
pub fn present_in(m: u64) -> usize
    ensures { result ≡ present_in m }
{
    (m / 256 % 256) as usize
}

// The word.
pub fn word_in(m: u64) -> u32
    ensures { result ≡ word_in m }
{
    (m / 4294967296) as u32
}

// The value of 8 bytes.
pub fn unpack(m: u64) -> Value
    ensures { result ≡ unpacked m }
{
    value_from(type_in(m), present_in(m), word_in(m))
}
