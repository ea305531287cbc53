// The values that a record gives: its time and its channels. Past the record's end every byte reads as 0, so nothing is required.
#![tactic(auto)]

ghost use Rattle.std.specs.Prelude.{◌≡◌, ◌+◌, ◌≤◌, ◌<◌, eqb, length};
ghost use Rattle.rules.specs.Bytes.{byte_at, u16_at, u32_at};
ghost use Rattle.rules.specs.Layout.{channel_value, flag_on, time_in};

use rules::{INT, MAYBE, Value};
use table::u32_at;

// Maybe int.
const MAYBE_INT: u8 = MAYBE + INT;

// The byte at i; 0 past the end.
fn byte_at(rec: &[u8], i: usize) -> u8
    ensures { result ≡ byte_at rec.now i }
{
    rec.get(i).copied().unwrap_or(0)
}

// The number of 4 bytes at a position, by one test where they are all in the record.
fn word_at(rec: &[u8], at: usize) -> u32
    requires { at < 98 }
    ensures { result ≡ u32_at rec.now at }
{
    if at + 4 <= rec.len() {
        return u32_at(rec, at);
    }
    u32::from_le_bytes([
        byte_at(rec, at),
        byte_at(rec, at + 1),
        byte_at(rec, at + 2),
        byte_at(rec, at + 3),
    ])
}

// The time.
pub fn time_in(rec: &[u8]) -> u32
    ensures { result ≡ time_in rec.now }
{
    word_at(rec, 0)
}

// The flag of channel 4 + c, a bit of byte 20.
fn flag_on(rec: &[u8], c: usize) -> bool
    requires { c < 8 }
    ensures { result ≡ eqb (flag_on rec.now c) 1 }
{
    let flags = usize::from(byte_at(rec, 20));
    (flags >> c) % 2 == 1
}

// The value of channel c. (Code 4 keeps c below 8; byte 20 has no flag from channel 12 on.)
pub fn channel_value(rec: &[u8], c: usize) -> Value
    ensures { result ≡ channel_value rec.now c }
{
    if c < 4 {
        return Value::Plain(INT, word_at(rec, 4 + 4 * c));
    }
    if 12 <= c {
        return Value::Absent(MAYBE_INT);
    }
    if flag_on(rec, c - 4) {
        return Value::Present(MAYBE_INT, word_at(rec, 24 + 4 * (c - 4)));
    }
    Value::Absent(MAYBE_INT)
}
