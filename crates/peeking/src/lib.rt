// The watched run: the plain run, with the values that listed nodes give in a second room. It answers for every byte string and list that it is
// handed: no requires.
#![tactic(auto)]

ghost use Rattle.std.specs.Prelude.{◌≡◌, ◌-◌, ◌≤◌, ◌<◌, length};
ghost use Rattle.rules.specs.Layout.{nodes, cells as cells_of, checks_of};
ghost use Rattle.rules.specs.Kinds.{is_signal};
ghost use Rattle.rules.specs.Shaped.{Shaped, NodeOf};
ghost use Rattle.rules.specs.Accepted.{Accepted};
ghost use Rattle.rules.specs.Calls.{run_outcome};
ghost use Rattle.cells.specs.Indexed.{Indexed};
ghost use Rattle.steps.specs.Going.{Leaves};
ghost use Rattle.watched.specs.Watch.{list_wrong, entry_off, list_fault, rooms_fit, watch_lent, watch_room, watch_listed, watch_accepted, watch_call};
ghost use Rattle.peeking.specs.Left.{LeavesAll};

use answers::refuse_if;
use cells::{index_cells, kind_of, number_of};
use kinds::is_signal;
use peek::watch_records;
use rules::{Ran, Refusal, Stopped};
use verdict::judge;
use watch::run_fits;
use watched::ListFault;
use well::state_verdict;

// Code 17: not 1 to 8 entries.
fn list_wrong(list: &[u16]) -> bool
    ensures { result ≡ list_wrong list.now }
{
    if list.len() == 0 {
        return true;
    }
    8 < list.len()
}

// Code 18 at entry j: no signal node, or not above the one before.
fn entry_off(p: &[u8], list: &[u16], j: usize, count: usize) -> bool
    requires { Shaped p.now × (count ≡ nodes p.now) × (j < length list.now) }
    ensures { result ≡ entry_off p.now list.now j }
{
    let x = number_of(list, j);
    if x >= count {
        return true;
    }
    if !is_signal(kind_of(p, x)) {
        return true;
    }
    if j == 0 {
        return false;
    }
    if number_of(list, j - 1) < x {
        return false;
    }
    true
}

// The first entry that is off.
fn list_fault(p: &[u8], list: &[u16], count: usize) -> Option<u32>
    requires { Shaped p.now × (count ≡ nodes p.now) × (length list.now ≤ 8) }
    ensures { result ≡ list_fault p.now list.now }
{
    for j in 0..list.len() {
        if entry_off(p, list, j, count) {
            return Some(j as u32);
        }
    }
    None
}

// Both rooms are of the right length: 8 bytes for each record, and 8 for each record and entry.
fn rooms_fit(recs: &[u8], list: &[u16], out: &[u8], room: &[u8]) -> bool
    requires { length list.now ≤ 8 }
    ensures { result ≡ rooms_fit recs.now list.now out.now room.now }
{
    let left = recs.len() / 40;
    if out.len() == 8 * left {
        return room.len() == 8 * list.len() * left;
    }
    false
}

// Codes 9, 15, 10 and 11.
fn lent_verdict(
    p: &[u8],
    index: &[u16; 10080],
    st: &[u8],
    recs: &[u8],
    list: &[u16],
    out: &[u8],
    room: &[u8],
    count: usize,
    held: usize,
) -> Result<(), Refusal>
    requires { NodeOf is_signal p.now (nodes p.now - 1) × Indexed p.now index.now × (count ≡ nodes p.now) × (held ≡ cells_of p.now) × (checks_of p.now < 4294967296) × (length list.now ≤ 8) }
    ensures { result ≡ watch_lent p.now st.now recs.now list.now out.now room.now }
{
    state_verdict(p, index, st, count, held)?;
    refuse_if(!run_fits(recs), Refusal::RecordsLength)?;
    refuse_if(!rooms_fit(recs, list, out, room), Refusal::OutputLength)
}

// The run of an accepted program with a list that is right.
fn watch_listed(
    p: &[u8],
    st: &mut [u8],
    recs: &[u8],
    list: &[u16],
    out: &mut [u8],
    room: &mut [u8],
    count: usize,
) -> Result<Ran, Stopped>
    requires { Accepted p.now × (count ≡ nodes p.now) × (length list.now ≤ 8) }
    ensures { Leaves (run_outcome p.now st.old recs.now out.old (watch_lent p.now st.old recs.now list.now out.old room.old)) result st.new out.new × (room.new ≡ watch_room p.now st.old recs.now list.now room.old (watch_lent p.now st.old recs.now list.now out.old room.old)) }
{
    let mut index: [u16; 10080] = [0; 10080];
    let held = index_cells(p, &mut index, count);
    lent_verdict(p, &index, st, recs, list, out, room, count, held)?;
    let mut env: [u64; 1008] = [0; 1008];
    watch_records(p, &index, recs, st, &mut env, list, out, room, count)
}

// Code 18, or the run of an accepted program with a list of 1 to 8 entries.
fn watch_entries(
    p: &[u8],
    st: &mut [u8],
    recs: &[u8],
    list: &[u16],
    out: &mut [u8],
    room: &mut [u8],
    count: usize,
) -> Result<Result<Ran, Stopped>, ListFault>
    requires { Accepted p.now × (count ≡ nodes p.now) × (length list.now ≤ 8) }
    ensures { LeavesAll (watch_listed p.now st.old recs.now list.now out.old room.old (list_fault p.now list.now)) result st.new out.new room.new }
{
    let off = list_fault(p, list, count);
    match off {
        Some(j) => Err(ListFault::ListEntry(j)),
        None => Ok(watch_listed(p, st, recs, list, out, room, count)),
    }
}

// Codes 17 and 18, or the run of an accepted program.
fn watch_accepted(
    p: &[u8],
    st: &mut [u8],
    recs: &[u8],
    list: &[u16],
    out: &mut [u8],
    room: &mut [u8],
    count: usize,
) -> Result<Result<Ran, Stopped>, ListFault>
    requires { Accepted p.now × (count ≡ nodes p.now) }
    ensures { LeavesAll (watch_accepted p.now st.old recs.now list.now out.old room.old) result st.new out.new room.new }
{
    if list_wrong(list) {
        return Err(ListFault::ListLength);
    }
    watch_entries(p, st, recs, list, out, room, count)
}

// Watch a list of records run: as run, and each step's values of the listed nodes go to its row of the second room, 8 bytes for each entry, or
// zeros where the evaluation did not come to the node.
pub fn watched(
    program: &[u8],
    state: &mut [u8],
    records: &[u8],
    list: &[u16],
    output: &mut [u8],
    shown: &mut [u8],
) -> Result<Result<Ran, Stopped>, ListFault>
    ensures { (result ≡ (watch_call program.now state.old records.now list.now output.old shown.old).answer) × (state.new ≡ (watch_call program.now state.old records.now list.now output.old shown.old).state) × (output.new ≡ (watch_call program.now state.old records.now list.now output.old shown.old).output) × (shown.new ≡ (watch_call program.now state.old records.now list.now output.old shown.old).room) }
{
    match judge(program) {
        Err(r) => Ok(Err(Stopped::from(r))),
        Ok(found) => watch_accepted(program, state, records, list, output, shown, found.count),
    }
}
