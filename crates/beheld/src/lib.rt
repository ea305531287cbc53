// What document 02 asks of the watched run, at the calls: each function calls crates peeking and watch as any caller does, and its contract is
// the paragraph's sentence. None has a requires.
#![tactic(auto)]

ghost use Rattle.beheld.specs.Beheld.{SaysDemand, PlainDemand, LooseDemand};

use rules::{Ran, Stopped};
use watched::ListFault;

// Watch a list of records run.
pub fn watch(
    program: &[u8],
    state: &mut [u8],
    records: &[u8],
    list: &[u16],
    output: &mut [u8],
    shown: &mut [u8],
) -> Result<Result<Ran, Stopped>, ListFault>
    ensures { SaysDemand program.now state.old records.now list.now output.old shown.old result state.new output.new shown.new }
{
    peeking::watched(program, state, records, list, output, shown)
}

// The answers of a watched run and of a plain one.
#[derive(Clone, Copy)]
pub struct Beside {
    pub watched: Result<Result<Ran, Stopped>, ListFault>,
    pub ran: Result<Ran, Stopped>,
}

// Watch a list of records run, and run it on copies of state and output.
pub fn watch_and_run(
    program: &[u8],
    state: &mut [u8],
    records: &[u8],
    list: &[u16],
    output: &mut [u8],
    shown: &mut [u8],
    state2: &mut [u8],
    output2: &mut [u8],
) -> Beside
    ensures { PlainDemand program.now records.now list.now shown.old state.old output.old state2.old output2.old result.watched state.new output.new result.ran state2.new output2.new }
{
    let watched = peeking::watched(program, state, records, list, output, shown);
    let ran = watch::run(program, state2, records, output2);
    Beside {
        watched: watched,
        ran: ran,
    }
}

// The answers of two watched runs.
#[derive(Clone, Copy)]
pub struct Both {
    pub one: Result<Result<Ran, Stopped>, ListFault>,
    pub other: Result<Result<Ran, Stopped>, ListFault>,
}

// Watch two lists of records run, on two copies of a state.
pub fn watch_both(
    program: &[u8],
    list: &[u16],
    state: &mut [u8],
    records: &[u8],
    output: &mut [u8],
    shown: &mut [u8],
    state2: &mut [u8],
    records2: &[u8],
    output2: &mut [u8],
    shown2: &mut [u8],
) -> Both
    ensures { LooseDemand program.now list.now state.old records.now output.old shown.old state2.old records2.now output2.old shown2.old result.one state.new output.new shown.new result.other state2.new output2.new shown2.new }
{
    let one = peeking::watched(program, state, records, list, output, shown);
    let other = peeking::watched(program, state2, records2, list, output2, shown2);
    Both {
        one: one,
        other: other,
    }
}
