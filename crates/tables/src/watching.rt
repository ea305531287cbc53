// tables watch NODE..: standard input as watchrun takes it; each step's line with the listed nodes' values behind it, - where the evaluation did
// not come to the node. Each line is written as its step is done. How much is read, what is a record, and what each line is, crates turns and lines
// answer.
ghost use Rattle.std.specs.Prelude.{◌≡◌, ◌≤◌, ◌<◌, length, take, None, IfOk, IfSome, MatchOption};
ghost use Rattle.io.specs.Counts.{IsPrefixLen};
ghost use Rattle.rules.specs.Bytes.{u64_at};
ghost use Rattle.rules.specs.Layout.{time_in};
ghost use Rattle.rules.specs.Values.{unpacked};
ghost use Rattle.lines.specs.Shown.{shown_line};
ghost use Rattle.tables.specs.Named.{with_digit, number_of};

use crate::codes::Meaning;
use crate::paired::entry;
use crate::say::{Misuse, Told, failed, misused, put, show};
use crate::{codes, given, say};
use feed::Reader;
use rules::{Checked, Ran, Refusal, Stopped};
use std::io::{Error, Read};
use watched::ListFault;

// A number with one more digit behind it; none where that is no digit, or the number none of 16 bits.
#[tactic(auto, using(crate::proofs::NamedLaws::digits))]
fn longer(n: u16, b: u8) -> Option<u16>
    ensures { MatchOption result (with_digit n b ≡ 65536) (λ m. (with_digit n b ≡ m) × (m ≤ 65535)) }
{
    match b {
        b'0'..=b'9' => n.checked_mul(10)?.checked_add(u16::from(b - b'0')),
        _ => None,
    }
}

// The number that an argument says; none where it is none of 16 bits.
fn number(text: &[u8]) -> Option<u16>
    ensures { MatchOption result (number_of text.now ≡ 65536) (λ n. number_of text.now ≡ n) }
{
    if text.is_empty() {
        return None;
    }
    let mut n = 0;
    for &b in text {
        n = longer(n, b)?;
    }
    Some(n)
}

// The node that argument i names.
fn node(rt: &HostRuntime, i: usize) -> Result<u16, Misuse> {
    let mut text = [0u8; 16];
    let n = given::word(rt, i, &mut text);
    number(&text[..n]).ok_or(Misuse::NoNode)
}

// Puts the nodes that the arguments name into a list.
fn nodes(rt: &HostRuntime, list: &mut [u16]) -> Result<(), Misuse> {
    for (entry, i) in list.iter_mut().zip(2..usize::MAX) {
        *entry = node(rt, i)?;
    }
    Ok(())
}

// The line of a step: the record's time, the value of its 8 bytes, the work, and the first entries of its row.
fn step_line(
    rec: &[u8; 40],
    value: &[u8; 8],
    work: u32,
    row: &[u8; 64],
    entries: usize,
    line: &mut [u8; 175],
) -> usize
    requires { entries ≤ 8 }
    ensures prefix_len { IsPrefixLen result line.new }
    ensures line_after { take result line.new ≡ shown_line (time_in rec.now) (unpacked (u64_at value.now 0)) work row.now entries }
{
    let time = table::u32_at(rec, 0);
    let v = values::unpack(cells::u64_at(value, 0));
    lines::shown_line(time, v, work, row, entries, line)
}

// Writes the line of a step.
fn put_step(
    rt: &HostRuntime,
    rec: &[u8; 40],
    value: &[u8; 8],
    work: u32,
    row: &[u8; 64],
    entries: usize,
) -> Result<(), Told>
    requires { entries ≤ 8 }
{
    let mut line = [0u8; 175];
    let n = step_line(rec, value, work, row, entries, &mut line);
    put(rt, &line[..n])
}

// A read of standard input that failed is told: what was printed is not the whole run.
fn unread(rt: &HostRuntime, error: Error) -> Told {
    failed(rt, b"tables: standard input", error)
}

// A refusal of the run, in words and as the last line: nothing follows.
fn refuse(rt: &HostRuntime, r: Refusal) -> Result<Option<u32>, Told>
    ensures { IfOk result (λ more. more ≡ None) }
{
    codes::refused_alone(rt, Meaning::from(r), rules::place_of(r))?;
    Ok(None)
}

// A list that has not 1 to 8 entries.
fn refuse_length(rt: &HostRuntime) -> Result<Option<u32>, Told>
    ensures { IfOk result (λ more. more ≡ None) }
{
    codes::refused_alone(rt, Meaning::WatchList, 0)?;
    Ok(None)
}

// The last line where no record is taken any more and so many bytes were read.
fn last(rt: &HostRuntime, left: usize, steps: u32, total: u32) -> Result<Option<u32>, Told>
    ensures { IfOk result (λ more. more ≡ None) }
{
    if left > 0 {
        return refuse(rt, Refusal::RecordsLength);
    }
    say::ended(rt, steps, total)?;
    Ok(None)
}

// The most records of a run.
const MOST_STEPS: u32 = 4096;

// A program, and the nodes of it that are watched.
#[derive(Clone, Copy)]
struct Watch<'a> {
    program: &'a [u8],
    list: &'a [u16],
}

impl<'a> Watch<'a> {
    // An entry of the list that is off: its place, its node and the word of that node's kind.
    fn refuse_entry(self, rt: &HostRuntime, j: u32) -> Result<Option<u32>, Told>
        ensures { IfOk result (λ more. more ≡ None) }
    {
        let meaning = Meaning::WatchEntry;
        let x = entry(self.list, j as usize);
        show(rt, format_args!("{meaning}: entry {j}, node {x}"))?;
        codes::kind_word(rt, ", ", codes::kind_at(self.program, x as usize))?;
        put(rt, b"\n")?;
        say::refused_at(rt, meaning as u8, j)?;
        Ok(None)
    }

    // A step of one record, and its line. Answers its work where the run goes on, none where it is refused.
    fn stepped(
        self,
        rt: &HostRuntime,
        state: &mut [u8],
        steps: u32,
        rec: &[u8; 40],
    ) -> Result<Option<u32>, Told>
        requires { steps < 4096 }
    {
        let mut value = [0u8; 8];
        let mut row = [0u8; 64];
        let n = self.list.len();
        if n > 8 {
            return refuse_length(rt);
        }
        match peeking::watched(
            self.program,
            state,
            rec,
            self.list,
            &mut value,
            &mut row[..8 * n],
        ) {
            Ok(ran) => match ran {
                Ok(ran) => {
                    put_step(rt, rec, &value, ran.work, &row, n)?;
                    Ok(Some(ran.work))
                }
                Err(stop) => refuse(rt, turns::placed(steps, stop.why)),
            },
            Err(ListFault::ListLength) => refuse_length(rt),
            Err(ListFault::ListEntry(j)) => self.refuse_entry(rt, j),
        }
    }

    // One turn: reads what is wanted for it, and steps, or says the last line. Answers the work of all steps where there is more to do.
    fn turn<R: Read>(
        self,
        rt: &HostRuntime,
        reader: &mut Reader<'_, R>,
        state: &mut [u8],
        steps: u32,
        total: u32,
    ) -> Result<Option<u32>, Told>
        ensures { IfOk result (λ more. IfSome more (λ all. steps < 4096)) }
    {
        let mut rec = [0u8; 40];
        let got = reader
            .gather(&mut rec, turns::wanted(steps))
            .map_err(|error| unread(rt, error))?;
        if turns::is_record(got, steps) {
            let work = self.stepped(rt, state, steps, &rec)?;
            return Ok(work.map(|more| total.saturating_add(more)));
        }
        last(rt, got, steps, total)
    }

    // One turn after the other, while there is more to do: one for each record at most, and one that says the last line.
    fn turns<R: Read>(
        self,
        rt: &HostRuntime,
        reader: &mut Reader<'_, R>,
        state: &mut [u8],
    ) -> Result<(), Told> {
        let mut total = 0;
        for steps in 0..=MOST_STEPS {
            match self.turn(rt, reader, state, steps, total)? {
                Some(all) => total = all,
                None => break,
            }
        }
        Ok(())
    }

    // Tries the list on no records.
    fn tried(self, state: &mut [u8]) -> Result<Result<Ran, Stopped>, ListFault> {
        let none = [0u8; 0];
        peeking::watched(
            self.program,
            state,
            &none,
            self.list,
            &mut [0u8; 0],
            &mut [0u8; 0],
        )
    }

    // Starts a state, tries the list, and makes the turns.
    fn started<R: Read>(
        self,
        rt: &HostRuntime,
        reader: &mut Reader<'_, R>,
        state: &mut [u8],
    ) -> Result<(), Told> {
        match watch::start(self.program, state) {
            Ok(()) => {}
            Err(r) => {
                refuse(rt, r)?;
                return Ok(());
            }
        }
        match self.tried(state) {
            Ok(_) => self.turns(rt, reader, state),
            Err(ListFault::ListLength) => {
                refuse_length(rt)?;
                Ok(())
            }
            Err(ListFault::ListEntry(j)) => {
                self.refuse_entry(rt, j)?;
                Ok(())
            }
        }
    }

    // Checks the program, prints its first line, and watches its run, with the first bytes of a state, which all states of accepted programs fit in.
    fn checked<R: Read>(self, rt: &HostRuntime, reader: &mut Reader<'_, R>) -> Result<(), Told> {
        let mut state = [0u8; 8072];
        match watch::check(self.program) {
            Ok(found) => {
                say::accepted(rt, found.nodes, found.cells, found.bound, found.root)?;
                match state.get_mut(..8 + 8 * (found.cells as usize)) {
                    Some(part) => self.started(rt, reader, part),
                    None => Ok(()),
                }
            }
            Err(r) => codes::refused(rt, self.program, r),
        }
    }
}

// Reads the blocks from the front of a run, and answers how many bytes they are.
fn blocks<R: Read>(
    rt: &HostRuntime,
    reader: &mut Reader<'_, R>,
    program: &mut [u8],
) -> Result<usize, Told>
    requires { 512 ≤ length program.old }
{
    let head = reader
        .gather(program, 512)
        .map_err(|error| unread(rt, error))?;
    let left = turns::blocks_left(program, head);
    let tail = reader
        .gather(&mut program[512..], left)
        .map_err(|error| unread(rt, error))?;
    Ok(head + tail)
}

// Reads the blocks from standard input, and watches their run with a list.
fn listed(rt: &HostRuntime, list: &[u16]) -> Result<(), Told> {
    let mut input = io::large_buffer();
    let mut reader = Reader::new(rt.reader(), &mut input);
    let mut program = [0u8; 12288];
    let n = blocks(rt, &mut reader, &mut program)?;
    let watch = Watch {
        program: feed::first(&program, n),
        list,
    };
    watch.checked(rt, &mut reader)
}

// Watches what the arguments name. (A list of more than eight is refused by 17, so that the ninth says enough.)
pub fn watch_nodes(rt: &HostRuntime) -> Result<(), Told> {
    let mut list = [0u16; 9];
    let count = given::count(rt).saturating_sub(2).min(9);
    nodes(rt, &mut list[..count]).map_err(|misuse| misused(rt, misuse))?;
    listed(rt, &list[..count])
}
