// Records of input: codes 12 and 13, the verdict on one, and the first record in whose step a number wrapped.
#![tactic(auto)]

ghost use Rattle.std.specs.Prelude.{◌≡◌, ◌<◌, ◌≤◌, ◌^◌, eqb, length};
ghost use Rattle.rules.specs.Bytes.{u64_at, ◌and◌, ◌or◌};
ghost use Rattle.rules.specs.Layout.{header_length, input_length, time_in};
ghost use Rattle.rules.specs.Calls.{absent_wrong, input_wrong, time_wrong, record_verdict, first_wrapped};

use answers::refuse_if;
use cells::{last_time, u64_at};
use rules::{NO_STEP, Refusal, Tally};
use table::u32_at;

// The time of a record.
pub fn time_of(rec: &[u8]) -> u32
    requires { input_length ≤ length rec.now }
    ensures { result ≡ time_in rec.now }
{
    u32_at(rec, 0)
}

// The word of an absent channel of 4-7, counted from 0, is not zero. The channel's flag is the bit of byte 20 that is worth `power`.
fn absent_wrong(rec: &[u8], c: usize, power: u8) -> bool
    requires { (input_length ≤ length rec.now) × (c < 4) × (0 < power) × (power ≡ 2 ^ c) }
    ensures { result ≡ absent_wrong rec.now c }
{
    u32_at(rec, 24 + 4 * c) != 0 && rec[20] / power % 2 == 0
}

// The words of the channels 4-7 are all zero.
fn no_events(rec: &[u8]) -> bool
    requires { input_length ≤ length rec.now }
    ensures { result ≡ (eqb (u64_at rec.now 24) 0 and eqb (u64_at rec.now 32) 0) }
{
    (u64_at(rec, 24) == 0) & (u64_at(rec, 32) == 0)
}

// An absent word of the channels 4-7 is not zero: none where all words are zero, as in most records.
fn events_wrong(rec: &[u8]) -> bool
    requires { input_length ≤ length rec.now }
    ensures { result ≡ (absent_wrong rec.now 0 or absent_wrong rec.now 1 or absent_wrong rec.now 2 or absent_wrong rec.now 3) }
{
    if no_events(rec) {
        return false;
    }
    absent_wrong(rec, 0, 1)
        | absent_wrong(rec, 1, 2)
        | absent_wrong(rec, 2, 4)
        | absent_wrong(rec, 3, 8)
}

// Code 12: high bits of the flags or zero bytes set, an absent word not zero, or the time too large. (The flags and the zero bytes are one number.)
pub fn input_wrong(rec: &[u8]) -> bool
    requires { input_length ≤ length rec.now }
    ensures { result ≡ input_wrong rec.now }
{
    let flags = 15 < u32_at(rec, 20);
    let late = 2147483647 < time_of(rec);
    flags | events_wrong(rec) | late
}

// Code 13: the time is before the state's time, if it has one.
pub fn time_wrong(st: &[u8], rec: &[u8]) -> bool
    requires { (header_length ≤ length st.now) × (input_length ≤ length rec.now) }
    ensures { result ≡ time_wrong st.now rec.now }
{
    let last = last_time(st);
    time_of(rec) < last && last != 4294967295
}

// The verdict on one record, after so many steps: 12, then 13.
pub fn record_verdict(st: &[u8], rec: &[u8], done: u32) -> Result<(), Refusal>
    requires { (header_length ≤ length st.now) × (input_length ≤ length rec.now) }
    ensures { result ≡ record_verdict done st.now rec.now }
{
    refuse_if(input_wrong(rec), Refusal::InputFault(done))?;
    refuse_if(time_wrong(st, rec), Refusal::TimeBack(done))
}

// The first step in which a number wrapped, after one more step that counted so much.
pub fn first_wrapped(mark: u32, done: u32, w: Tally) -> u32
    ensures { result ≡ first_wrapped mark done w }
{
    if w.wrapped && mark == NO_STEP {
        done
    } else {
        mark
    }
}
