// What watchrun prints, part by part: how much is read, the opening line, and a line for each turn. The program reads, writes and calls these.
#![tactic(auto)]

ghost use Rattle.std.specs.Prelude.{◌≡◌, true, false, suc, ◌+◌, ◌*◌, ◌/◌, ◌≤◌, ◌<◌, length, take};
ghost use Rattle.io.specs.Counts.{IsPrefixLen};
ghost use Rattle.rules.specs.Bytes.{u64_at};
ghost use Rattle.rules.specs.Layout.{time_in, input_length};
ghost use Rattle.rules.specs.Values.{unpacked};
ghost use Rattle.lines.specs.Print.{step_line, refused_line};
ghost use Rattle.rules.specs.Calls.{run_from, no_step};
ghost use Rattle.promises.specs.Small.{Small};
ghost use Rattle.promises.specs.Run.{work_in};
ghost use Rattle.noted.specs.Noted.{Noted};
ghost use Rattle.steps.specs.Going.{Going, Leaves, most_work};
ghost use Rattle.turns.specs.Decided.{most_records};
ghost use Rattle.printing.specs.Printed.{last_line};
ghost use Rattle.printing.specs.Turns.{opening_line, record_turn, turn_of, Turned};
ghost use Rattle.printing.specs.Runs.{size_of, has_more, IsUnder, Lent};

use rules::{Checked, Ran, Refusal, Stopped};
use steps::run_records;
use turns::{in_all, is_record, placed};

// A run of an accepted program on its way: what is lent for it, the steps done and their work.
#[derive(Drop)]
pub struct Run<'a> {
    pub program: &'a [u8],
    pub index: &'a [u16; 10080],
    pub state: &'a mut [u8],
    pub env: &'a mut [u64; 1008],
    pub memo: &'a mut [u64; 1008],
    pub count: usize,
    pub steps: u32,
    pub total: u32,
}

// The line of a turn, of so many bytes: a step's, behind which there is more to come, or the last.
#[derive(Clone, Copy)]
pub enum Line {
    Step(usize),
    Last(usize),
}

// The first line of what check found, or the only one.
pub fn opening(found: Result<Checked, Refusal>, line: &mut [u8; 64]) -> usize
    ensures prefix_len { IsPrefixLen result line.new }
    ensures line_after { take result line.new ≡ opening_line found }
{
    match found {
        Ok(found) => lines::first_line(found.nodes, found.cells, found.bound, found.root, line),
        Err(r) => lines::refused_line(r, line),
    }
}

// The last line where no record is taken any more and so many bytes were read.
fn last(left: usize, steps: u32, total: u32, line: &mut [u8; 64]) -> usize
    ensures prefix_len { IsPrefixLen result line.new }
    ensures line_after { take result line.new ≡ last_line left steps total }
{
    if left == 0 {
        return lines::end_line(steps, total, line);
    }
    lines::refused_line(Refusal::RecordsLength, line)
}

// The line of a step: the record's time, the value of its 8 bytes, the work.
fn stepped(rec: &[u8], value: &[u8; 8], work: u32, line: &mut [u8; 64]) -> usize
    requires { length rec.now ≡ 40 }
    ensures prefix_len { IsPrefixLen result line.new }
    ensures line_after { take result line.new ≡ step_line (time_in rec.now) (unpacked (u64_at value.now 0)) work }
{
    let time = table::u32_at(rec, 0);
    let v = values::unpack(cells::u64_at(value, 0));
    lines::step_line(time, v, work, line)
}

// A run of one record. Its bytes, those of the program and of the state are bytes, as all are, which a caller that holds them in a struct isn't told.
fn run_one(
    program: &[u8],
    index: &[u16; 10080],
    rec: &[u8],
    state: &mut [u8],
    env: &mut [u64; 1008],
    value: &mut [u8; 8],
    count: usize,
    memo: &mut [u64; 1008],
) -> Result<Ran, Stopped>
    requires { Going program.now index.now state.old env.old count × (length rec.now ≡ 40) × Noted program.now memo.old }
    ensures ran { Leaves (run_from program.now rec.now (length rec.now / input_length) 0 0 no_step state.old value.old) result state.new value.new }
    ensures going { Going program.now index.now state.new env.new count }
    ensures spent { work_in result ≤ most_work * (length rec.now / input_length) }
    ensures noted { Noted program.now memo.new }
    ensures small { Small program.now × Small state.old × Small rec.now }
{
    run_records(program, index, rec, state, env, value, count, memo)
}

impl Run<'_> {
    // The turn of a whole record: a run of one, and its work to the total, which 4,096 steps don't take past 4,294,967,295.
    fn taken(&mut self, rec: &[u8], line: &mut [u8; 64]) -> Line
        requires { IsUnder self.old × (self.old.steps < most_records) × (length rec.now ≡ 40) }
        ensures prefix_len { IsPrefixLen (size_of result) line.new }
        ensures turned { Turned (record_turn self.old.program.now rec.now self.old.steps self.old.total self.old.state.now) line.new (size_of result) (has_more result) self.new.steps self.new.total self.new.state.now }
        ensures under { IsUnder self.new }
        ensures lent { Lent self.old self.new }
    {
        let mut value = [0u8; 8];
        match run_one(
            self.program,
            self.index,
            rec,
            self.state,
            self.env,
            &mut value,
            self.count,
            self.memo,
        ) {
            Ok(ran) => {
                self.steps += 1;
                self.total = in_all(self.total, ran.work);
                Line::Step(stepped(rec, &value, ran.work, line))
            }
            Err(stop) => { Line::Last(lines::refused_line(placed(self.steps, stop.why), line)) }
        }
    }

    // A turn on the bytes that were read for it: its step, or the last line.
    pub fn turn(&mut self, piece: &[u8], line: &mut [u8; 64]) -> Line
        requires { IsUnder self.old × (length piece.now ≤ 40) }
        ensures prefix_len { IsPrefixLen (size_of result) line.new }
        ensures turned { Turned (turn_of self.old.program.now piece.now self.old.steps self.old.total self.old.state.now) line.new (size_of result) (has_more result) self.new.steps self.new.total self.new.state.now }
        ensures under { IsUnder self.new }
        ensures lent { Lent self.old self.new }
    {
        if is_record(piece.len(), self.steps) {
            return self.taken(piece, line);
        }
        Line::Last(last(piece.len(), self.steps, self.total, line))
    }
}
