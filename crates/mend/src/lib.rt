// The call that brings a state back, and the list of what changed.
#![tactic(auto)]

ghost use Rattle.std.specs.Prelude.{◌≡◌, ◌+◌, ◌-◌, ◌≤◌, ◌<◌, length};
ghost use Rattle.rules.specs.Bytes.{write_at};
ghost use Rattle.rules.specs.Layout.{nodes, cells as cells_of, checks_of, state_length, cell_at};
ghost use Rattle.rules.specs.Kinds.{is_signal};
ghost use Rattle.rules.specs.Shaped.{Shaped, NodeOf};
ghost use Rattle.rules.specs.Accepted.{Accepted};
ghost use Rattle.cells.specs.Indexed.{Indexed};
ghost use Rattle.mends.specs.Mend.{mended};
ghost use Rattle.mends.specs.Changes.{changed_from, changed_below, changes};
ghost use Rattle.mends.specs.MendCall.{known_verdict, mend_known, mend_outcome, mend_call};
ghost use Rattle.mend.specs.Kept.{StandsIn, entry_if, Leaves};

use answers::refuse_if;
use cells::{cell, cell_at, index_cells, last_time};
use mending::bring_back;
use mends::Unmended;
use rules::Refusal;
use stamp::{checks_of, sum_in};
use verdict::judge;

// A state as it was, at the front of a room that it fits in.
fn keep(room: &mut [u8], st: &[u8])
    requires { length st.now ≤ length room.old }
    ensures { StandsIn st.now room.new }
{
    room[..st.len()].copy_from_slice(st);
}

// An entry stored at a place of the list where something changed; the answer is the place behind it.
fn add_entry(list: &mut [u16], at: usize, changed: bool, entry: u16) -> usize
    requires { (at < length list.old) × (length list.old ≤ 1009) }
    ensures { (result ≡ at + length (entry_if changed entry)) × (list.new ≡ write_at list.old at (entry_if changed entry)) }
{
    if changed {
        list[at] = entry;
        return at + 1;
    }
    at
}

// The numbers of the cells that changed from one state to another, rising, listed from a place on; the answer is the place behind them.
fn list_cells(old: &[u8; 8072], st: &[u8], list: &mut [u16], held: usize, from: usize) -> usize
    requires { (cell_at held ≤ length st.now) × (length st.now ≤ 8072) × (from + held ≤ length list.old) × (length list.old ≤ 1009) }
    ensures { (result ≡ from + length (changed_from old.now st.now 0 held)) × (list.new ≡ write_at list.old from (changed_from old.now st.now 0 held)) }
{
    let mut found = from;
    for k in 0..held {
        let changed = cell(st, k) != cell(old, k);
        found = add_entry(list, found, changed, k as u16);
    }
    found
}

// All that changed, listed: 65535 in front if the time did, then the cells; the answer is how many entries there are.
fn list_changes(old: &[u8; 8072], st: &[u8], list: &mut [u16], held: usize) -> usize
    requires { (cell_at held ≤ length st.now) × (length st.now ≤ 8072) × (length list.old ≡ held + 1) }
    ensures { (result ≡ length (changed_below old.now st.now held)) × (list.new ≡ write_at list.old 0 (changed_below old.now st.now held)) }
{
    let from = add_entry(list, 0, last_time(st) != last_time(old), 65535);
    list_cells(old, st, list, held, from)
}

// A state brought back, and what changed listed in a room of one entry more than its cells.
fn mend_listed(
    p: &[u8],
    index: &[u16; 10080],
    st: &mut [u8],
    list: &mut [u16],
    count: usize,
    held: usize,
) -> usize
    requires { NodeOf is_signal p.now (nodes p.now - 1) × Indexed p.now index.now × (count ≡ nodes p.now) × (held ≡ cells_of p.now) × (length st.old ≡ state_length p.now) × (length list.old ≡ held + 1) }
    ensures { (result ≡ length (changes p.now st.old (mended p.now st.old))) × (st.new ≡ mended p.now st.old) × (list.new ≡ write_at list.old 0 (changes p.now st.old (mended p.now st.old))) }
{
    let mut old: [u8; 8072] = [0; 8072];
    keep(&mut old, st);
    bring_back(p, index, st, count);
    list_changes(&old, st, list, held)
}

// A state of the right length and sum: code 16, or the state brought back.
fn mend_known(
    p: &[u8],
    index: &[u16; 10080],
    st: &mut [u8],
    list: &mut [u16],
    count: usize,
    held: usize,
) -> Result<u32, Unmended>
    requires { NodeOf is_signal p.now (nodes p.now - 1) × Indexed p.now index.now × (count ≡ nodes p.now) × (held ≡ cells_of p.now) × (length st.old ≡ state_length p.now) }
    ensures { Leaves (mend_known p.now st.old list.old) result st.new list.new }
{
    if list.len() != held + 1 {
        return Err(Unmended::ListLength);
    }
    let listed = mend_listed(p, index, st, list, count, held);
    Ok(listed as u32)
}

// Codes 9 and 15: the length of a state, and the sum that it carries.
fn known_verdict(p: &[u8], st: &[u8], held: usize) -> Result<(), Refusal>
    requires { Shaped p.now × (held ≡ cells_of p.now) × (checks_of p.now < 4294967296) }
    ensures { result ≡ known_verdict p.now st.now }
{
    if st.len() != cell_at(held) {
        return Err(Refusal::StateFault);
    }
    refuse_if(sum_in(st) != checks_of(p), Refusal::OtherProgram)
}

// A state of an accepted program.
fn mend_accepted(p: &[u8], st: &mut [u8], list: &mut [u16], count: usize) -> Result<u32, Unmended>
    requires { Accepted p.now × (count ≡ nodes p.now) }
    ensures { Leaves (mend_outcome p.now st.old list.old (known_verdict p.now st.old)) result st.new list.new }
{
    let mut index: [u16; 10080] = [0; 10080];
    let held = index_cells(p, &mut index, count);
    known_verdict(p, st, held)?;
    mend_known(p, &index, st, list, count, held)
}

// Bring a state back: what is valid in a current part is kept, all else put to start; the list says what changed, 65535 for the time and then
// the cells, rising, and the room after it is left. A refusal leaves state and list as before.
pub fn mend(program: &[u8], state: &mut [u8], list: &mut [u16]) -> Result<u32, Unmended>
    ensures { (result ≡ (mend_call program.now state.old list.old).answer) × (state.new ≡ (mend_call program.now state.old list.old).state) × (list.new ≡ (mend_call program.now state.old list.old).list) }
{
    let found = judge(program)?;
    mend_accepted(program, state, list, found.count)
}
