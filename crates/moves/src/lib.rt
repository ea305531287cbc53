// The outcome of an update in place, as one number: each of the rules' small functions once; and the cell of a node, stored.
// (The contract of update::update_s says it by left_in of such a number; as an enum of 24 bytes it went through memory at every rule.)
#![tactic(auto)]

ghost use Rattle.std.specs.Prelude.{◌≡◌, true, ◌+◌, ◌≤◌, ◌<◌, length, get_or};
ghost use Rattle.rules.specs.Bytes.{Bytes};
ghost use Rattle.rules.specs.Values.{is_plain, type_in, unpacked};
ghost use Rattle.rules.specs.Layout.{hold as holdIn, hold_branch};
ghost use Rattle.rules.specs.Work.{Jump, moved, stays, leave, noted, one_rule, ◌plus◌, afterᵘ, ruleᵘ};
ghost use Rattle.rules.specs.Moved.{Stay};
ghost use Rattle.outcomes.specs.Outcome.{IsValue};
ghost use Rattle.current.specs.Current.{shortly};
ghost use Rattle.moves.specs.Outcomes.{count_in, tally_in, target_in, jump_value, moved_in, calm_of};
ghost use Rattle.moves.specs.Lent.{Celled};

use cells::{number_of, set_cell};
use rules::{Tally, Value};
use values::{pack, unpack, wide, wide_word};

// What an update that must stay has counted; none where it is broken: a jump that leaves it breaks it as being stuck does.
pub fn settled(r: u64) -> Option<Tally>
    ensures { result ≡ calm_of (moved_in r) }
{
    if r == 0 {
        return None;
    }
    if r < 1048576 {
        return Some(Tally {
            work: r % 524288,
            wrapped: 524288 <= r,
        });
    }
    None
}

// An update that no jump leaves.
pub fn stay(r: u64) -> u64
    ensures { ((st : Bytes) → moved (moved_in result) st ≡ stays (moved (moved_in r) st)) × (count_in result ≤ count_in r) }
{
    if r < 1048576 { r } else { 0 }
}

// The same outcome, with a number that wrapped in it.
fn marked(r: u64) -> u64
    requires { 0 < r }
    ensures { ((st : Bytes) → moved (moved_in result) st ≡ afterᵘ (noted true) (moved (moved_in r) st)) × (count_in result ≡ count_in r) }
{
    if r % 1048576 < 524288 {
        return r + 524288;
    }
    r
}

// An update after so much was counted.
pub fn after(u: Tally, r: u64) -> u64
    requires { u.work + count_in r < 524288 }
    ensures { ((st : Bytes) → moved (moved_in result) st ≡ afterᵘ u (moved (moved_in r) st)) × (count_in result ≤ u.work + count_in r) }
{
    if r == 0 {
        return 0;
    }
    let s = r + u.work;
    if u.wrapped {
        return marked(s);
    }
    s
}

// By one more rule.
pub fn ruled(r: u64) -> u64
    requires { count_in r < 524287 }
    ensures { (st : Bytes) → moved (moved_in result) st ≡ ruleᵘ (moved (moved_in r) st) }
{
    if r == 0 {
        return 0;
    }
    r + 1
}

// Two counts together, and one rule.
pub fn together(u: Tally, w: Tally) -> Tally
    requires { u.work + w.work < 524287 }
    ensures { result ≡ one_rule plus (u plus w) }
{
    Tally {
        work: u.work + w.work + 1,
        wrapped: u.wrapped | w.wrapped,
    }
}

// What was counted, as a number of 20 bits.
fn counted(u: Tally) -> u64
    requires { u.work < 524288 }
    ensures { (tally_in result ≡ u) × (u.work ≤ result) × (result < 1048576) }
{
    if u.wrapped {
        return u.work + 524288;
    }
    u.work
}

// By one more rule, after two counts.
pub fn later(u: Tally, w: Tally, r: u64) -> u64
    requires { u.work + w.work + count_in r < 524287 }
    ensures { (st : Bytes) → moved (moved_in result) st ≡ ruleᵘ (afterᵘ u (afterᵘ w (moved (moved_in r) st))) }
{
    after(together(u, w), r)
}

// An update that stays, by one rule and two counts.
pub fn stayed(u: Tally, w: Tally) -> u64
    requires { u.work + w.work < 524287 }
    ensures { (st : Bytes) → moved (moved_in result) st ≡ ruleᵘ (afterᵘ u (afterᵘ w (leave st))) }
{
    counted(together(u, w))
}

// A node number as a 64-bit number.
fn number(x: usize) -> u64
    ensures { result ≡ x }
{
    x as u64
}

// A target as a number of 10 bits.
fn short(target: usize) -> u64
    ensures { (result ≡ shortly target) × (result < 1024) }
{
    if target < 1023 { number(target) } else { 1023 }
}

// A jump to a target with a plain value of 8 bytes, after so much was counted.
pub fn jump(target: usize, v: u64, u: Tally) -> u64
    requires { IsValue v × (is_plain (type_in v) ≡ true) × (u.work < 524288) }
    ensures { (st : Bytes) → moved (moved_in result) st ≡ Jump (shortly target) (unpacked v) st u }
{
    match unpack(v) {
        Value::Plain(t, w) => {
            let high = 4194304 * short(target) + 4294967296 * wide_word(w);
            counted(u) + 1048576 * wide(t) + high
        }
        Value::Absent(_) => 0,
        Value::Present(_, _) => 0,
    }
}

// What a jump has counted, by one more rule, as an update that stays.
pub fn caught(r: u64) -> u64
    requires { count_in r < 524287 }
    ensures { moved_in result ≡ Stay (one_rule plus tally_in r) }
{
    r % 1048576 + 1
}

// The target of a jump.
pub fn target_in(r: u64) -> usize
    ensures { result ≡ target_in r }
{
    (r / 4194304 % 1024) as usize
}

// The value of a jump, by its 8 bytes.
pub fn value_in(r: u64) -> u64
    ensures { (result ≡ jump_value r) × IsValue result }
{
    let t = (r / 1048576 % 4) as u8;
    let word = (r / 4294967296) as u32;
    pack(Value::Plain(t, word))
}

// The value of 8 bytes stored in the cell of node i.
pub fn hold(index: &[u16], st: &mut [u8], i: usize, v: u64)
    requires { Celled index.now (length st.old) i × IsValue v }
    ensures { st.new ≡ holdIn st.old (get_or index.now i 0) (unpacked v) }
{
    set_cell(st, number_of(index, i), v);
}

// A branch and its argument of 8 bytes stored in the cell of group i: the branch's node number stands in bytes 2-3.
pub fn hold_branch(index: &[u16], st: &mut [u8], i: usize, which: usize, v: u64)
    requires { Celled index.now (length st.old) i × (which < 65536) × IsValue v }
    ensures { st.new ≡ hold_branch st.old (get_or index.now i 0) which (unpacked v) }
{
    set_cell(st, number_of(index, i), v + 65536 * number(which));
}
