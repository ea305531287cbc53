// The combinators of evaluation on outcomes that are one number each: the rules' small functions once, none of them recursive.
// (The contract of evaluate::evaluated says that number, IsOutcome; as an enum of 24 bytes it went through memory at every rule.)
#![tactic(auto)]

ghost use Rattle.std.specs.Prelude.{◌≡◌, true, ◌+◌, ◌*◌, ◌≤◌, ◌<◌, Some};
ghost use Rattle.rules.specs.Values.{packed, unpacked, middle_in};
ghost use Rattle.rules.specs.Operations.{operand_type, truth as truthIs};
ghost use Rattle.rules.specs.Work.{noted, ◌plus◌, give, after as after_of, rule};
ghost use Rattle.rules.specs.Evaluate.{look as look_of, meant, operated as operatedOf, negated as negatedOf, lifted as liftedOf};
ghost use Rattle.rules.specs.Evaluated.{Done};
ghost use Rattle.outcomes.specs.Combine.{work_of, word_by, arm_in, parts_of};
ghost use Rattle.outcomes.specs.Outcome.{tally_in, outcome_in, IsOutcome, IsProper, IsValue, Slots, value_in, shown_in};

use rules::{BOOL, INT, MAYBE, Tally, Value};
use values::{is_maybe, pack, pack_from, present_in, type_in, unpack, word_in};
use words::{divide, number, quotient_left, test};

// The arm that an if evaluates, with what its test counted.
#[derive(Clone, Copy)]
pub struct Arm {
    pub at: usize,
    pub count: Tally,
}

// An evaluated maybe: the 8 bytes of the plain value that it holds, where it is present, with what its evaluation counted.
#[derive(Clone, Copy)]
pub struct Parts {
    pub event: Option<u64>,
    pub count: Tally,
}

// An outcome taken apart: the 8 bytes of its value, with what was counted.
#[derive(Clone, Copy)]
pub struct Shown {
    pub value: u64,
    pub count: Tally,
}

// What was counted, as a number of 16 bits.
fn counted_in(m: u64) -> u64
    ensures { (result ≡ middle_in m) × (result < 65536) }
{
    m / 65536 % 65536
}

// What was counted: the work, and whether a number wrapped.
fn tally_in(m: u64) -> Tally
    ensures { result ≡ tally_in (middle_in m) }
{
    let count = counted_in(m);
    Tally {
        work: count % 32768,
        wrapped: 32768 <= count,
    }
}

// Two counts together, marked where one of them is. (That neither is marked is one test, with a jump that is foreseen.)
fn joined(a: u64, b: u64) -> u64
    requires { (a < 65536) × (b < 65536) × ((tally_in a).work + (tally_in b).work < 32767) }
    ensures { (tally_in result ≡ tally_in a plus tally_in b) × (result < 65535) }
{
    let count = a + b;
    if count < 32768 {
        return count;
    }
    let once = (a < 32768) | (b < 32768);
    if once {
        return count;
    }
    count - 32768
}

// The 8 bytes of the value: what was counted is left out.
fn value_in(m: u64) -> u64
    ensures { result ≡ value_in m }
{
    m % 65536 + 4294967296 * (m / 4294967296)
}

// The 8 bytes of the value that a cell's content stands for.
pub fn exactly(m: u64) -> u64
    ensures { result ≡ packed (unpacked m) }
{
    pack_from(type_in(m), present_in(m), word_in(m))
}

// A value with what was counted.
fn outcome(v: Value, count: u64) -> u64
    requires { IsProper v × (0 < count) × (count < 65536) }
    ensures { (outcome_in result ≡ Done v (tally_in count)) × IsOutcome result }
{
    pack(v) + 65536 * count
}

// The same outcome, with a number that wrapped in it.
fn marked(r: u64) -> u64
    requires { IsOutcome r }
    ensures { (outcome_in result ≡ after_of (noted true) (outcome_in r)) × IsOutcome result }
{
    if r == 0 {
        return 0;
    }
    if counted_in(r) < 32768 {
        return r + 2147483648;
    }
    r
}

// A value, by one rule.
pub fn given(v: Value) -> u64
    requires { IsProper v }
    ensures { (outcome_in result ≡ rule (give v)) × IsOutcome result }
{
    outcome(v, 1)
}

// The value that a cell's content stands for, by one rule.
pub fn held(m: u64) -> u64
    ensures { (outcome_in result ≡ rule (give (unpacked m))) × IsOutcome result }
{
    exactly(m) + 65536
}

// By one more rule.
pub fn ruled(r: u64) -> u64
    requires { IsOutcome r × (work_of (outcome_in r) < 32767) }
    ensures { (outcome_in result ≡ rule (outcome_in r)) × IsOutcome result }
{
    if r == 0 {
        return 0;
    }
    r + 65536
}

// By one more rule, after so much was counted.
pub fn later(w: Tally, r: u64) -> u64
    requires { IsOutcome r × (w.work + work_of (outcome_in r) < 32767) }
    ensures { (outcome_in result ≡ rule (after_of w (outcome_in r))) × IsOutcome result }
{
    if r == 0 {
        return 0;
    }
    let s = r + 65536 * (w.work + 1);
    if w.wrapped {
        return marked(s);
    }
    s
}

// A variable's value in its binder's slot, by one rule; a slot that is 0 has none.
fn looked(env: &[u64], n: usize) -> u64
    requires { Slots env.now }
    ensures { (outcome_in result ≡ rule (look_of env.now n)) × IsOutcome result }
{
    if n < env.len() {
        let m = env[n];
        if m == 0 {
            return 0;
        }
        return m + 65536;
    }
    0
}

// The same of an environment whose reference is one register.
pub fn variable(env: &[u64; 1008], n: usize) -> u64
    requires { Slots env.now }
    ensures { (outcome_in result ≡ rule (look_of env.now n)) × IsOutcome result }
{
    looked(env, n)
}

// The word of an outcome that is a plain value of type t. (Stuck reads as absent.)
fn plain_word(t: u8, m: u64) -> Option<u32>
    ensures { result ≡ word_by t (outcome_in m) }
{
    match unpack(m) {
        Value::Plain(u, w) => {
            if u == t {
                return Some(w);
            }
            None
        }
        Value::Absent(_) => None,
        Value::Present(_, _) => None,
    }
}

// A value with what was counted, marked where an operation left the range.
fn outcome_if(left: bool, v: Value, count: u64) -> u64
    requires { IsProper v × (0 < count) × (count < 65536) }
    ensures { (outcome_in result ≡ after_of (tally_in count) (Done v (noted left))) × IsOutcome result }
{
    if left {
        return marked(outcome(v, count));
    }
    outcome(v, count)
}

// A truth value with what was counted.
fn truth(t: bool, count: u64) -> u64
    requires { (0 < count) × (count < 65536) }
    ensures { (outcome_in result ≡ Done (truthIs t) (tally_in count)) × IsOutcome result }
{
    if t {
        return outcome(Value::Plain(BOOL, 1), count);
    }
    outcome(Value::Plain(BOOL, 0), count)
}

// What an operation gives on the words of its operands, with what was counted.
fn result(k: u8, x: u32, y: u32, count: u64) -> u64
    requires { (0 < count) × (count < 65536) }
    ensures { (outcome_in result ≡ after_of (tally_in count) (meant k x y)) × IsOutcome result }
{
    if k <= 20 {
        let n = number(k, x, y);
        return outcome_if(n.left, Value::Plain(INT, n.word), count);
    }
    if k == 21 {
        return outcome_if(quotient_left(x, y), divide(x, y), count);
    }
    truth(test(k, x, y), count)
}

// An operation on two outcomes that have these words, by one rule.
fn on_words(k: u8, x: u32, y: u32, r: u64, s: u64) -> u64
    requires { (word_by (operand_type k) (outcome_in r) ≡ Some x) × (word_by (operand_type k) (outcome_in s) ≡ Some y) × (work_of (outcome_in r) + work_of (outcome_in s) < 32767) }
    ensures { (outcome_in result ≡ rule (operatedOf k (outcome_in r) (outcome_in s))) × IsOutcome result }
{
    result(k, x, y, joined(counted_in(r), counted_in(s)) + 1)
}

// An operation that takes ints, kinds 18-23, on two outcomes, by one rule.
pub fn on_ints(k: u8, r: u64, s: u64) -> u64
    requires { (k ≤ 23) × (work_of (outcome_in r) + work_of (outcome_in s) < 32767) }
    ensures { (outcome_in result ≡ rule (operatedOf k (outcome_in r) (outcome_in s))) × IsOutcome result }
{
    let Some(x) = plain_word(INT, r) else {
        return 0;
    };
    let Some(y) = plain_word(INT, s) else {
        return 0;
    };
    on_words(k, x, y, r, s)
}

// An operation that takes bools, kinds 25 and 26, on two outcomes, by one rule. (With on_words here too, its code stands apart from evaluation, and
// each sum is a call more.)
pub fn on_bools(k: u8, r: u64, s: u64) -> u64
    requires { (23 < k) × (work_of (outcome_in r) + work_of (outcome_in s) < 32767) }
    ensures { (outcome_in result ≡ rule (operatedOf k (outcome_in r) (outcome_in s))) × IsOutcome result }
{
    let Some(x) = plain_word(BOOL, r) else {
        return 0;
    };
    let Some(y) = plain_word(BOOL, s) else {
        return 0;
    };
    truth(test(k, x, y), joined(counted_in(r), counted_in(s)) + 1)
}

// The value of 8 bytes, by one rule.
pub fn fixed(m: u64) -> u64
    requires { IsValue m }
    ensures { (outcome_in result ≡ rule (give (unpacked m))) × IsOutcome result }
{
    m + 65536
}

// Not of an outcome, by one rule.
pub fn negated(r: u64) -> u64
    requires { work_of (outcome_in r) < 32767 }
    ensures { (outcome_in result ≡ rule (negatedOf (outcome_in r))) × IsOutcome result }
{
    let Some(w) = plain_word(BOOL, r) else {
        return 0;
    };
    truth(w == 0, counted_in(r) + 1)
}

// Just of an outcome, by one rule.
pub fn lifted(r: u64) -> u64
    requires { work_of (outcome_in r) < 32767 }
    ensures { (outcome_in result ≡ rule (liftedOf (outcome_in r))) × IsOutcome result }
{
    match unpack(r) {
        Value::Plain(t, w) => outcome(Value::Present(t + MAYBE, w), counted_in(r) + 1),
        Value::Absent(_) => 0,
        Value::Present(_, _) => 0,
    }
}

// The arm, yes or no, that the outcome of a test chooses; none where it is no bool.
pub fn chosen(r: u64, yes: usize, no: usize) -> Option<Arm>
    ensures { result ≡ arm_in (outcome_in r) yes no }
{
    let Some(w) = plain_word(BOOL, r) else {
        return None;
    };
    let count = tally_in(r);
    if w == 1 {
        return Some(Arm { at: yes, count });
    }
    Some(Arm { at: no, count })
}

// The outcome of a maybe, taken apart; none where it is no maybe: a maybe's type is 4 above the type of what it holds.
pub fn apart(r: u64) -> Option<Parts>
    ensures { result ≡ parts_of (outcome_in r) }
{
    if r == 0 {
        return None;
    }
    let count = tally_in(r);
    match unpack(r) {
        Value::Plain(_, _) => None,
        Value::Absent(_) => Some(Parts { event: None, count }),
        Value::Present(t, w) => {
            if is_maybe(t) {
                let inner = pack(Value::Plain(t - MAYBE, w));
                return Some(Parts {
                    event: Some(inner),
                    count,
                });
            }
            None
        }
    }
}

// An outcome taken apart; none where it is stuck.
pub fn show(r: u64) -> Option<Shown>
    ensures { result ≡ shown_in r }
{
    if r == 0 {
        return None;
    }
    Some(Shown {
        value: value_in(r),
        count: tally_in(r),
    })
}
