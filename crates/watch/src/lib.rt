// The three public calls. Each answers for every byte string that it is handed: none has a requires.
#![tactic(auto)]

ghost use Rattle.std.specs.Prelude.{◌≡◌, ◌-◌, ◌<◌, Err};
ghost use Rattle.rules.specs.Verdicts.{accepted_with};
ghost use Rattle.rules.specs.Layout.{nodes, cells as cells_of, checks_of};
ghost use Rattle.rules.specs.Bound.{bound as boundOf};
ghost use Rattle.rules.specs.Kinds.{is_signal};
ghost use Rattle.rules.specs.Shaped.{NodeOf};
ghost use Rattle.rules.specs.Tree.{root};
ghost use Rattle.rules.specs.Typing.{type_s};
ghost use Rattle.rules.specs.Accepted.{Accepted};
ghost use Rattle.rules.specs.Calls.{check_call, start_call, run_call, run_outcome};
ghost use Rattle.cells.specs.Indexed.{Indexed};
ghost use Rattle.steps.specs.Going.{Leaves};
ghost use Rattle.starting.specs.Begun.{start_rest};
ghost use Rattle.watch.specs.Lent.{lent_rest, run_fits};

use answers::refuse_if;
use bound::bound_of;
use cells::{count_cells, index_cells};
use rules::{Checked, Ran, Refusal, Stopped};
use starting::begin;
use steps::run_records;
use verdict::{Judged, judge};
use well::state_verdict;

// What check says of a program that has no fault.
fn accept(p: &[u8], judged: Judged) -> Checked
    requires { Accepted p.now × (judged.count ≡ nodes p.now) × (judged.ty ≡ type_s (root p.now)) }
    ensures nodes { result.nodes ≡ nodes p.now }
    ensures cells { result.cells ≡ cells_of p.now }
    ensures bound { result.bound ≡ boundOf p.now }
    ensures root { result.root ≡ type_s (root p.now) }
{
    let held = count_cells(p, judged.count);
    Checked {
        nodes: judged.count as u32,
        cells: held as u32,
        bound: bound_of(p, judged.count),
        root: judged.ty,
    }
}

// Check a program: its first code and smallest place, or its nodes, cells, bound and root type.
pub fn check(program: &[u8]) -> Result<Checked, Refusal>
    ensures { result ≡ check_call program.now }
{
    let found = judge(program)?;
    Ok(accept(program, found))
}

// The start state of an accepted program, if the room for it is of the right length.
fn start_accepted(p: &[u8], st: &mut [u8], count: usize) -> Result<(), Refusal>
    requires { Accepted p.now × (count ≡ nodes p.now) }
    ensures { (result ≡ (start_rest p.now st.old).answer) × (st.new ≡ (start_rest p.now st.old).state) }
{
    let mut index: [u16; 10080] = [0; 10080];
    begin(p, &mut index, st, count)
}

// Start a state: the room becomes the start state, or is as before where the call refuses.
pub fn start(program: &[u8], state: &mut [u8]) -> Result<(), Refusal>
    ensures { (result ≡ (start_call program.now state.old).answer) × (state.new ≡ (start_call program.now state.old).state) }
{
    let judged = judge(program)?;
    start_accepted(program, state, judged.count)
}

// Codes 9, 15, 10 and 11.
fn lent_verdict(
    p: &[u8],
    index: &[u16; 10080],
    st: &[u8],
    recs: &[u8],
    out: &[u8],
    count: usize,
    held: usize,
    fit: bool,
) -> Result<(), Refusal>
    requires { NodeOf is_signal p.now (nodes p.now - 1) × Indexed p.now index.now × (count ≡ nodes p.now) × (held ≡ cells_of p.now) × (checks_of p.now < 4294967296) }
    ensures { result ≡ lent_rest p.now st.now recs.now out.now fit }
{
    state_verdict(p, index, st, count, held)?;
    refuse_if(!fit, Refusal::RecordsLength)?;
    refuse_if(out.len() != 8 * (recs.len() / 40), Refusal::OutputLength)
}

// A run has 0 to 4,096 records of 40 bytes.
pub fn run_fits(recs: &[u8]) -> bool
    ensures { result ≡ run_fits recs.now }
{
    if recs.len() % 40 == 0 {
        recs.len() / 40 <= 4096
    } else {
        false
    }
}

// A run of an accepted program.
fn run_accepted(
    p: &[u8],
    st: &mut [u8],
    recs: &[u8],
    out: &mut [u8],
    count: usize,
) -> Result<Ran, Stopped>
    requires { Accepted p.now × (count ≡ nodes p.now) }
    ensures { Leaves (run_outcome p.now st.old recs.now out.old (lent_rest p.now st.old recs.now out.old (run_fits recs.now))) result st.new out.new }
{
    let mut index: [u16; 10080] = [0; 10080];
    let held = index_cells(p, &mut index, count);
    let fit = run_fits(recs);
    lent_verdict(p, &index, st, recs, out, count, held, fit)?;
    let mut env: [u64; 1008] = [0; 1008];
    let mut memo: [u64; 1008] = [0; 1008];
    run_records(p, &index, recs, st, &mut env, out, count, &mut memo)
}

// Run a list of records: each step's value goes to its 8 bytes of the output room and the state goes on, until a record is refused.
pub fn run(
    program: &[u8],
    state: &mut [u8],
    records: &[u8],
    output: &mut [u8],
) -> Result<Ran, Stopped>
    ensures { (result ≡ (run_call program.now state.old records.now output.old).answer) × (state.new ≡ (run_call program.now state.old records.now output.old).state) × (output.new ≡ (run_call program.now state.old records.now output.old).output) }
{
    let judged = judge(program)?;
    run_accepted(program, state, records, output, judged.count)
}
