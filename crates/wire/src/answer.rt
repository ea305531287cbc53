// The lines of the answers.
ghost use Rattle.std.specs.Prelude.{◌≡◌, take, Ok};
ghost use Rattle.io.specs.Counts.{IsPrefixLen};
ghost use Rattle.wire.specs.Lines.{accepted_line, checked_line, coded_line, explained_line, finished_line, listed_line, mended_line, new_line, paired_line, printed_line, ran_line, read_line, refused_line, started_line, steps_line, stopped_line, tidied_line, unlisted_line, watched_line};

use crate::text::{put, put_field};
use chains::{Chain, NoChain};
use dropped::Unpaired;
use mends::Unmended;
use rewritten::Untidied;
use rules::{Checked, Ran, Refusal, Stopped};
use texts::{NoTable, NoText};
use watched::ListFault;
use written::TableSize;

// Puts `REFUSED code place work` at the start of line, and answers its length.
fn coded_line(code: u32, place: u32, work: u32, line: &mut [u8; 64]) -> usize
    ensures prefix_len { IsPrefixLen result line.new }
    ensures line_after { take result line.new ≡ coded_line code place work }
{
    let a = put(b"REFUSED ", line, 0);
    let b = put_field(code, b' ', line, a);
    let c = put_field(place, b' ', line, b);
    put_field(work, b'\n', line, c)
}

// The same of a refusal.
pub(crate) fn refused_line(r: Refusal, work: u32, line: &mut [u8; 64]) -> usize
    ensures prefix_len { IsPrefixLen result line.new }
    ensures line_after { take result line.new ≡ refused_line r work }
{
    let code = rules::code_of(r) as u32;
    let place = rules::place_of(r);
    coded_line(code, place, work, line)
}

// Puts the answer of a check, `OK nodes cells bound type`, at the start of line, and answers its length.
fn accepted_line(n: u32, cells: u32, bound: u32, ty: u8, line: &mut [u8; 64]) -> usize
    ensures prefix_len { IsPrefixLen result line.new }
    ensures line_after { take result line.new ≡ accepted_line n cells bound ty }
{
    let a = put(b"OK ", line, 0);
    let b = put_field(n, b' ', line, a);
    let c = put_field(cells, b' ', line, b);
    let d = put_field(bound, b' ', line, c);
    put_field(ty as u32, b'\n', line, d)
}

// Puts the answer of a check at the start of line, and answers its length.
pub fn checked_line(answer: Result<Checked, Refusal>, line: &mut [u8; 64]) -> usize
    ensures prefix_len { IsPrefixLen result line.new }
    ensures line_after { take result line.new ≡ checked_line answer }
{
    match answer {
        Ok(found) => accepted_line(found.nodes, found.cells, found.bound, found.root, line),
        Err(fault) => refused_line(fault, 0, line),
    }
}

// Puts the answer of a start that is done, `OK`, at the start of line, and answers its length.
fn ready_line(line: &mut [u8; 64]) -> usize
    ensures prefix_len { IsPrefixLen result line.new }
    ensures line_after { take result line.new ≡ started_line (Ok tt) }
{
    put(b"OK\n", line, 0)
}

// Puts the answer of a start at the start of line, and answers its length.
pub fn started_line(answer: Result<(), Refusal>, line: &mut [u8; 64]) -> usize
    ensures prefix_len { IsPrefixLen result line.new }
    ensures line_after { take result line.new ≡ started_line answer }
{
    match answer {
        Ok(()) => ready_line(line),
        Err(r) => refused_line(r, 0, line),
    }
}

// Puts `OK` and two numbers, the let and the entries of a chain or the nodes and the length of a new table, at the start of line, and answers
// its length.
fn finished_line(one: u32, other: u32, line: &mut [u8; 64]) -> usize
    ensures prefix_len { IsPrefixLen result line.new }
    ensures line_after { take result line.new ≡ finished_line one other }
{
    let a = put(b"OK ", line, 0);
    let b = put_field(one, b' ', line, a);
    put_field(other, b'\n', line, b)
}

// Puts the answer of a run that is finished, `OK steps work wrapped`, at the start of line, and answers its length.
fn steps_line(steps: u32, work: u32, wrapped: u32, line: &mut [u8; 64]) -> usize
    ensures prefix_len { IsPrefixLen result line.new }
    ensures line_after { take result line.new ≡ steps_line steps work wrapped }
{
    let a = put(b"OK ", line, 0);
    let b = put_field(steps, b' ', line, a);
    let c = put_field(work, b' ', line, b);
    put_field(wrapped, b'\n', line, c)
}

// Puts the answer of a run that is refused, `REFUSED code place work wrapped`, at the start of line, and answers its length.
fn stopped_line(r: Refusal, work: u32, wrapped: u32, line: &mut [u8; 64]) -> usize
    ensures prefix_len { IsPrefixLen result line.new }
    ensures line_after { take result line.new ≡ stopped_line r work wrapped }
{
    let code = rules::code_of(r) as u32;
    let place = rules::place_of(r);
    let a = put(b"REFUSED ", line, 0);
    let b = put_field(code, b' ', line, a);
    let c = put_field(place, b' ', line, b);
    let d = put_field(work, b' ', line, c);
    put_field(wrapped, b'\n', line, d)
}

// Puts the answer of a run at the start of line, and answers its length.
pub fn ran_line(answer: Result<Ran, Stopped>, line: &mut [u8; 64]) -> usize
    ensures prefix_len { IsPrefixLen result line.new }
    ensures line_after { take result line.new ≡ ran_line answer }
{
    match answer {
        Ok(ran) => steps_line(ran.steps, ran.work, ran.wrapped, line),
        Err(stop) => stopped_line(stop.why, stop.work, stop.wrapped, line),
    }
}

// Puts the refusal of a list, `REFUSED code place 0 65535`, at the start of line, and answers its length: no step is done.
fn unlisted_line(code: u32, place: u32, line: &mut [u8; 64]) -> usize
    ensures prefix_len { IsPrefixLen result line.new }
    ensures line_after { take result line.new ≡ unlisted_line code place }
{
    let a = put(b"REFUSED ", line, 0);
    let b = put_field(code, b' ', line, a);
    let c = put_field(place, b' ', line, b);
    let d = put_field(0, b' ', line, c);
    put_field(65535, b'\n', line, d)
}

// Puts the answer of watched at the start of line, and answers its length.
#[tactic(auto, unfolding(crate::specs::Lines::watched_line))]
pub fn watched_line(answer: Result<Result<Ran, Stopped>, ListFault>, line: &mut [u8; 64]) -> usize
    ensures prefix_len { IsPrefixLen result line.new }
    ensures line_after { take result line.new ≡ watched_line answer }
{
    match answer {
        Ok(ran) => ran_line(ran, line),
        Err(ListFault::ListLength) => unlisted_line(17, 0, line),
        Err(ListFault::ListEntry(j)) => unlisted_line(18, j, line),
    }
}

// Puts the answer of explain at the start of line, and answers its length.
#[tactic(auto, unfolding(crate::specs::Lines::explained_line))]
pub fn explained_line(answer: Result<Chain, NoChain>, line: &mut [u8; 64]) -> usize
    ensures prefix_len { IsPrefixLen result line.new }
    ensures line_after { take result line.new ≡ explained_line answer }
{
    match answer {
        Ok(chain) => finished_line(chain.of, chain.entries, line),
        Err(NoChain::Refused(r)) => refused_line(r, 0, line),
        Err(NoChain::NoLet) => coded_line(25, 0, 0, line),
        Err(NoChain::RoomLength) => coded_line(26, 0, 0, line),
    }
}

// Puts `OK` and one number, how many entries mend listed or the length of a printed text, at the start of line, and answers its length.
fn listed_line(one: u32, line: &mut [u8; 64]) -> usize
    ensures prefix_len { IsPrefixLen result line.new }
    ensures line_after { take result line.new ≡ listed_line one }
{
    let a = put(b"OK ", line, 0);
    put_field(one, b'\n', line, a)
}

// Puts the answer of mend at the start of line, and answers its length.
#[tactic(auto, unfolding(crate::specs::Lines::mended_line))]
pub fn mended_line(answer: Result<u32, Unmended>, line: &mut [u8; 64]) -> usize
    ensures prefix_len { IsPrefixLen result line.new }
    ensures line_after { take result line.new ≡ mended_line answer }
{
    match answer {
        Ok(entries) => listed_line(entries, line),
        Err(Unmended::Refused(r)) => refused_line(r, 0, line),
        Err(Unmended::ListLength) => coded_line(16, 0, 0, line),
    }
}

// Puts the answer of tidy at the start of line, and answers its length.
#[tactic(auto, unfolding(crate::specs::Lines::tidied_line))]
pub fn tidied_line(answer: Result<TableSize, Untidied>, line: &mut [u8; 64]) -> usize
    ensures prefix_len { IsPrefixLen result line.new }
    ensures line_after { take result line.new ≡ tidied_line answer }
{
    match answer {
        Ok(size) => finished_line(size.nodes, size.bytes, line),
        Err(Untidied::Refused(r)) => refused_line(r, 0, line),
        Err(Untidied::RoomShort) => coded_line(19, 0, 0, line),
    }
}

// Puts the refusal of a new program, with 32 added to its code, at the start of line, and answers its length.
fn new_line(r: Refusal, line: &mut [u8; 64]) -> usize
    ensures prefix_len { IsPrefixLen result line.new }
    ensures line_after { take result line.new ≡ new_line r }
{
    let code = 32 + rules::code_of(r) as u32;
    let place = rules::place_of(r);
    coded_line(code, place, 0, line)
}

// Puts the answer of paired at the start of line, and answers its length.
#[tactic(auto, unfolding(crate::specs::Lines::paired_line))]
pub fn paired_line(answer: Result<(), Unpaired>, line: &mut [u8; 64]) -> usize
    ensures prefix_len { IsPrefixLen result line.new }
    ensures line_after { take result line.new ≡ paired_line answer }
{
    match answer {
        Ok(()) => ready_line(line),
        Err(Unpaired::OldRefused(r)) => refused_line(r, 0, line),
        Err(Unpaired::NewRefused(r)) => new_line(r, line),
        Err(Unpaired::EditionsDiffer) => coded_line(29, 0, 0, line),
        Err(Unpaired::PairingLength) => coded_line(27, 0, 0, line),
        Err(Unpaired::EntryWrong(i)) => coded_line(28, i, 0, line),
    }
}

// Puts the answer of read at the start of line, and answers its length.
#[tactic(auto, unfolding(crate::specs::Lines::read_line))]
pub fn read_line(answer: Result<TableSize, NoTable>, line: &mut [u8; 64]) -> usize
    ensures prefix_len { IsPrefixLen result line.new }
    ensures line_after { take result line.new ≡ read_line answer }
{
    match answer {
        Ok(size) => finished_line(size.nodes, size.bytes, line),
        Err(NoTable::BadWord(at)) => coded_line(21, at, 0, line),
        Err(NoTable::BadName(at)) => coded_line(22, at, 0, line),
        Err(NoTable::BadNumber(at)) => coded_line(23, at, 0, line),
        Err(NoTable::RoomShort) => coded_line(24, 0, 0, line),
        Err(NoTable::Refused(r)) => refused_line(r, 0, line),
    }
}

// Puts the answer of print at the start of line, and answers its length.
#[tactic(auto, unfolding(crate::specs::Lines::printed_line))]
pub fn printed_line(answer: Result<u32, NoText>, line: &mut [u8; 64]) -> usize
    ensures prefix_len { IsPrefixLen result line.new }
    ensures line_after { take result line.new ≡ printed_line answer }
{
    match answer {
        Ok(length) => listed_line(length, line),
        Err(NoText::Refused(r)) => refused_line(r, 0, line),
        Err(NoText::RoomShort) => coded_line(24, 0, 0, line),
    }
}
