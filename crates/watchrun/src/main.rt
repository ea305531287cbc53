// Standard input: blocks, then records. The program is checked and started once, and each record costs its step. Here is reading, writing and
// calling; how much is read, and what each line is, crates turns and printing answer. What writes is lent the runtime first.
#![tactic(auto)]

mod say;

ghost use Rattle.std.specs.Prelude.{true, ◌≡◌, ◌+◌, ◌≤◌, length, IfOk};
ghost use Rattle.rules.specs.Layout.{nodes, cells as cells_of};
ghost use Rattle.rules.specs.Accepted.{Accepted};
ghost use Rattle.printing.specs.Runs.{IsUnder, Lent};

use feed::Reader;
use printing::{Line, Run};
use rules::Checked;
use say::Failure;
use starting::MOST_STATE;
use std::io::Read;

const BLOCK: usize = 512;

// Reads block 0, and the blocks that are left after it, and answers how many bytes. A part block, or too few, is the check's to refuse.
fn take_program(reader: &mut Reader<impl Read>, program: &mut [u8]) -> Result<usize, std::io::Error>
    requires { 512 ≤ length program.old }
{
    let head = reader.gather(program, BLOCK)?;
    let left = turns::blocks_left(program, head);
    let tail = reader.gather(&mut program[BLOCK..], left)?;
    Ok(head + tail)
}

// One turn: reads what is wanted for it, and writes its line. It answers whether there is more to come.
fn step(rt: &impl Print, run: &mut Run, reader: &mut Reader<impl Read>) -> Result<bool, Failure>
    requires { IsUnder run.old }
    ensures under { IsUnder run.new }
    ensures lent { Lent run.old run.new }
    ensures counted { IfOk result (λ more. more ≡ true → run.new.steps ≡ run.old.steps + 1) }
{
    let mut rec = [0u8; 40];
    let Ok(got) = reader.gather(&mut rec, turns::wanted(run.steps)) else {
        return Err(Failure::Input);
    };
    let mut line = [0u8; 64];
    match run.turn(&rec[..got], &mut line) {
        Line::Step(n) => {
            say::put(rt, &line[..n])?;
            Ok(true)
        }
        Line::Last(n) => {
            say::put(rt, &line[..n])?;
            Ok(false)
        }
    }
}

// One turn after the other, while there is more to come. (It counts nothing: a turn says whether another follows, so a `for` would be no plainer.)
fn steps(rt: &impl Print, run: &mut Run, reader: &mut Reader<impl Read>) -> Result<(), Failure>
    requires { IsUnder run.old }
{
    let mut more = true;
    while more {
        more = step(rt, run, reader)?;
    }
    Ok(())
}

// Starts an accepted program, and steps it: the table of its cells, the room for its variables and the slots of its definitions' outcomes are made
// once.
fn started(
    rt: &impl Print,
    program: &[u8],
    state: &mut [u8],
    reader: &mut Reader<impl Read>,
    count: usize,
) -> Result<(), Failure>
    requires { Accepted program.now × (count ≡ nodes program.now) }
{
    let mut index: [u16; 10080] = [0; 10080];
    let ready = starting::begin(program, &mut index, state, count);
    match ready {
        Ok(()) => {
            let mut env: [u64; 1008] = [0; 1008];
            let mut memo: [u64; 1008] = [0; 1008];
            let mut run = Run {
                program,
                index: &index,
                state,
                env: &mut env,
                memo: &mut memo,
                count,
                steps: 0,
                total: 0,
            };
            steps(rt, &mut run, reader)
        }
        Err(_) => Ok(()),
    }
}

// A program of so many cells runs in a state of that length.
fn accepted(
    rt: &impl Print,
    held: usize,
    program: &[u8],
    state: &mut [u8],
    reader: &mut Reader<impl Read>,
    count: usize,
) -> Result<(), Failure>
    requires { Accepted program.now × (count ≡ nodes program.now) × (held ≡ cells_of program.now) × (length state.old ≡ 8072) }
{
    let n = cells::cell_at(held);
    started(rt, program, &mut state[..n], reader, count)
}

// Checks what was read, prints the first line or the only one, and runs what is accepted.
fn watched(
    rt: &impl Print,
    program: &[u8],
    state: &mut [u8],
    reader: &mut Reader<impl Read>,
) -> Result<(), Failure>
    requires { length state.old ≡ 8072 }
{
    let found = watch::check(program);
    say::opening(rt, found)?;
    match found {
        Ok(found) => accepted(
            rt,
            found.cells as usize,
            program,
            state,
            reader,
            found.nodes as usize,
        ),
        Err(_) => Ok(()),
    }
}

// Reads the blocks, and runs what they hold.
fn main(rt: HostRuntime) {
    let mut input = io::buffer();
    let mut program = [0u8; 12288];
    let mut state = [0u8; MOST_STATE];
    let mut reader = Reader::new(rt.reader(), &mut input);
    let ran = match take_program(&mut reader, &mut program) {
        Ok(count) => watched(&rt, feed::first(&program, count), &mut state, &mut reader),
        Err(_) => Err(Failure::Input),
    };
    if let Err(failure) = ran {
        say::ended(&rt, failure);
    }
}
