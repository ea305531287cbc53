// The lines.
use rules::Refusal;
use std::fmt;
use std::io::{Error, Print};

// What went wrong is told on standard error already: no line follows it.
#[derive(Clone, Copy, Debug, PartialEq, Eq)]
pub struct Told;

// Bad use: what no command takes.
#[derive(Clone, Copy, Debug, PartialEq, Eq)]
pub enum Misuse {
    NoCommand,
    NoCode,
    LongText,
    HalfEntry,
    NoFile,
    NoNode,
}

impl fmt::Display for Misuse {
    fn fmt<W: fmt::Write>(&self, f: &mut fmt::Formatter<W>) -> fmt::Result {
        f.write_str(match self {
            Misuse::NoCommand => "no such command; tables help lists them",
            Misuse::NoCode => "no such code; tables codes lists them",
            Misuse::LongText => "the text is longer than 262,144 bytes",
            Misuse::HalfEntry => "the pairing is not whole entries of 2 bytes",
            Misuse::NoFile =>
                "mend writes the state back in its file, and takes none from standard input",
            Misuse::NoNode => "a node is a number from 0 to 65535",
        })
    }
}

// Tells bad use on standard error.
pub fn misused(rt: &HostRuntime, misuse: Misuse) -> Told {
    let _ = rt.stderr().print(format_args!("tables: {misuse}\n"));
    Told
}

// Writes words to standard error. There is nowhere to say that they are lost.
fn warn(rt: &HostRuntime, words: &[u8]) {
    let _ = rt.stderr().write_all(words);
}

// What stands before the number that std puts behind the words of a system's error.
fn before_number(words: &str) -> &str {
    match words.split_once(" (os error ") {
        Some((text, _)) => text,
        None => words,
    }
}

// The words of an error; with std's number behind them where there is no memory for a text.
fn put_error(rt: &HostRuntime, error: Error) {
    match error.to_string(rt.alloc()) {
        Ok(words) => warn(rt, before_number(words.as_str()).as_bytes()),
        Err(_) => {
            let _ = rt.stderr().print(error);
        }
    }
}

// Writes a line to standard error: what failed, and why.
pub fn failed(rt: &HostRuntime, what: &[u8], error: Error) -> Told {
    warn(rt, what);
    warn(rt, b": ");
    put_error(rt, error);
    warn(rt, b"\n");
    Told
}

// A write to standard output, or that it is lost, told on standard error.
fn kept(rt: &HostRuntime, written: Result<(), Error>) -> Result<(), Told> {
    written.map_err(|error| failed(rt, b"tables: standard output", error))
}

// Writes bytes: a line, or a part of one.
pub fn put(rt: &HostRuntime, bytes: &[u8]) -> Result<(), Told> {
    kept(rt, rt.write_all(bytes))
}

// Writes what prints itself: a line, or a part of one.
pub fn show<D: fmt::Display + Drop>(rt: &HostRuntime, what: D) -> Result<(), Told> {
    kept(rt, rt.print(what))
}

// Writes a line that a function of crate lines puts at the start of a room.
fn line<F: FnOnce(&mut [u8; 64]) -> usize>(rt: &HostRuntime, make: F) -> Result<(), Told>
    requires { F.IsAlwaysCallable make }
{
    let mut room = [0u8; 64];
    let n = make(&mut room);
    put(rt, feed::first(&room, n))
}

pub fn accepted(rt: &HostRuntime, n: u32, held: u32, bound: u32, ty: u8) -> Result<(), Told> {
    line(rt, |room| lines::first_line(n, held, bound, ty, room))
}

// The channels that a table names, a bit a channel.
pub fn channels(rt: &HostRuntime, bits: u8) -> Result<(), Told> {
    line(rt, |room| lines::channels_line(bits, room))
}

pub fn refused(rt: &HostRuntime, r: Refusal) -> Result<(), Told> {
    line(rt, |room| lines::refused_line(r, room))
}

// The last line for a code that is no refusal of one program.
pub fn refused_at(rt: &HostRuntime, code: u8, place: u32) -> Result<(), Told> {
    show(rt, format_args!("REFUSED {code} {place}\n"))
}

// Two numbers as a run's last line: the let that is explained and how many entries its chain has; the nodes of an old and of a new table.
pub fn ended(rt: &HostRuntime, x: u32, entries: u32) -> Result<(), Told> {
    line(rt, |room| lines::end_line(x, entries, room))
}

pub fn help(rt: &HostRuntime) -> Result<(), Told> {
    put(
        rt,
        b"tables check FILE                  checks a table, and prints the channels that it names; - is standard input
tables run [FILE..]                prints a run of blocks and records, one file behind the other or standard input, as watchrun does
tables watch NODE..                prints a run of standard input as tables run does, with what up to eight nodes gave behind each line
tables read TEXT [TABLE]           checks a table as it is typed, and writes its blocks; a mistake is shown by line and column, with a mark
tables print FILE                  prints a table as text
tables why FILE                    prints why the let that code 8 names is not ready: the nodes from its definition to its own variable
tables pair OLD NEW PAIRING        checks that a table that others tidied is the old one with unused lets dropped, as their pairing says
tables tidy [OLD [NEW [PAIRING]]]  drops the lets that nobody uses; without NEW the new table goes to standard output
tables mend TABLE STATE            brings a damaged state back in its file, and says which cells changed
tables codes [CODE]                says in words what each code means, or this one
tables version                     prints the version
tables help                        prints this
",
    )
}

// The version stands in include/couplerfinch.h; tools/hosts holds this line against it.
pub fn version(rt: &HostRuntime) -> Result<(), Told> {
    put(rt, b"couplerfinch 1.1.0\n")
}
