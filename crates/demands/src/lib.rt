// The demands at the public calls: each function calls crate watch as any caller does, and its contract is what the mission asks of that call
// (crates/mission/specs/Mission.antt), or what document 02 asks of two and of three of them (h and j). None has a requires.
#![tactic(auto)]

ghost use Rattle.mission.specs.Mission.{CheckDemands, StartDemands, RunDemands};
ghost use Rattle.demands.specs.Third.{ThirdDemand};
ghost use Rattle.demands.specs.Unplugged.{UnpluggedDemand};
ghost use Rattle.demands.specs.Parts.{PartsDemand};

use rules::{Checked, Ran, Refusal, Stopped};

// Check a program.
pub fn check(program: &[u8]) -> Result<Checked, Refusal>
    ensures { CheckDemands program.now result }
{
    watch::check(program)
}

// Start a state.
pub fn start(program: &[u8], state: &mut [u8]) -> Result<(), Refusal>
    ensures { StartDemands program.now state.old result state.new }
{
    watch::start(program, state)
}

// Run a list of records. (The answer is handed on case by case, so that wrong ones can be tried here.)
pub fn run(
    program: &[u8],
    state: &mut [u8],
    records: &[u8],
    output: &mut [u8],
) -> Result<Ran, Stopped>
    ensures { RunDemands program.now state.old records.now output.old result state.new output.new }
{
    let answer = watch::run(program, state, records, output);
    match answer {
        Ok(ran) => Ok(ran),
        Err(stop) => Err(stop),
    }
}

// The answers of check and run.
#[derive(Clone, Copy)]
pub struct Asked {
    pub checked: Result<Checked, Refusal>,
    pub ran: Result<Ran, Stopped>,
}

// Check a program, and run a list of records on it.
pub fn check_and_run(program: &[u8], state: &mut [u8], records: &[u8], output: &mut [u8]) -> Asked
    ensures { ThirdDemand program.now state.old records.now output.old result.checked result.ran state.new output.new }
{
    let checked = watch::check(program);
    let ran = watch::run(program, state, records, output);
    Asked {
        checked: checked,
        ran: ran,
    }
}

// The answers of two runs.
#[derive(Clone, Copy)]
pub struct Two {
    pub one: Result<Ran, Stopped>,
    pub other: Result<Ran, Stopped>,
}

// Run two lists of records on two copies of a state.
pub fn run_both(
    program: &[u8],
    state: &mut [u8],
    records: &[u8],
    output: &mut [u8],
    state2: &mut [u8],
    records2: &[u8],
    output2: &mut [u8],
) -> Two
    ensures { UnpluggedDemand program.now state.old records.now output.old state2.old records2.now output2.old result.one state.new output.new result.other state2.new output2.new }
{
    let one = watch::run(program, state, records, output);
    let other = watch::run(program, state2, records2, output2);
    Two {
        one: one,
        other: other,
    }
}

// The answers of the runs of two parts, and of the whole.
#[derive(Clone, Copy)]
pub struct Three {
    pub first: Result<Ran, Stopped>,
    pub second: Result<Ran, Stopped>,
    pub whole: Result<Ran, Stopped>,
}

// Run the two parts of a list of records one after the other, and the whole from a copy of the state.
pub fn run_parts(
    program: &[u8],
    state: &mut [u8],
    copy: &mut [u8],
    part1: &[u8],
    part2: &[u8],
    records: &[u8],
    output1: &mut [u8],
    output2: &mut [u8],
    output: &mut [u8],
) -> Three
    ensures { PartsDemand state.old copy.old part1.now part2.now records.now output1.old output2.old output.old result.first result.second result.whole state.new copy.new output1.new output2.new output.new }
{
    let first = watch::run(program, state, part1, output1);
    let second = watch::run(program, state, part2, output2);
    let whole = watch::run(program, copy, records, output);
    Three {
        first: first,
        second: second,
        whole: whole,
    }
}
