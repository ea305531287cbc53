// A refusal in words: what its code means (docs/CODES.md has the same sentences) and what stands at its place.
ghost use Rattle.std.specs.Prelude.{◌≡◌, ◌<◌};
ghost use Rattle.rules.specs.Layout.{records, kind_at};

use crate::kind::Kind;
use crate::say::{Misuse, Told, misused, put, show};
use crate::{given, say};
use rules::{Checked, Refusal};
use std::fmt;

// What a code means: of a program, from StateFault on of what else a call is handed: the memory of a run, lists and rooms, a text, and a
// pairing. 14 was one, and is not used again; 20 was none.
#[derive(Clone, Copy, Debug, PartialEq, Eq)]
pub enum Meaning {
    ProgramLength = 1,
    CheckSum = 2,
    BlockNumber = 3,
    RecordFault = 4,
    ShapeFault = 5,
    ScopeFault = 6,
    TypeFault = 7,
    NotReady = 8,
    StateFault = 9,
    RecordsLength = 10,
    OutputLength = 11,
    InputFault = 12,
    TimeBack = 13,
    OtherProgram = 15,
    MendList = 16,
    WatchList = 17,
    WatchEntry = 18,
    NewRoom = 19,
    BadWord = 21,
    BadName = 22,
    BadNumber = 23,
    TextRoom = 24,
    NoLet = 25,
    ChainRoom = 26,
    PairingLength = 27,
    PairingEntry = 28,
    EditionsDiffer = 29,
}

impl fmt::Display for Meaning {
    fn fmt<W: fmt::Write>(&self, f: &mut fmt::Formatter<W>) -> fmt::Result {
        f.write_str(match self {
            Meaning::ProgramLength =>
                "the program is empty, longer than 24 blocks or not whole blocks of 512 bytes",
            Meaning::CheckSum => "the check sum of this block is not that of its bytes",
            Meaning::BlockNumber =>
                "this block has not its own number, the count of all blocks or the edition of block 0",
            Meaning::RecordFault => {
                "this record of the table by itself is wrong: its kind, type, constant, channel, a field that must be zero, or the end of the records"
            }
            Meaning::ShapeFault => "the nodes do not make one tree of the right sorts",
            Meaning::ScopeFault => {
                "the binder of this variable does not hold here, or the target of this case is no branch of a group that it may leave"
            }
            Meaning::TypeFault => "the types at this node do not agree",
            Meaning::NotReady => "the definition of this let needs its own value of the same step",
            Meaning::StateFault =>
                "the state is not one that this program can have, or has not its length",
            Meaning::RecordsLength =>
                "the records are not whole records of 40 bytes, or more than 4,096",
            Meaning::OutputLength => "the room for values is not 8 bytes for each record",
            Meaning::InputFault => "this record is not well-formed",
            Meaning::TimeBack => "the time of this record is before the time of the state",
            Meaning::OtherProgram => "the state is that of another program",
            Meaning::MendList =>
                "the room for the list is not one entry for each cell and one more",
            Meaning::WatchList => "the list of nodes to watch has not 1 to 8 entries",
            Meaning::WatchEntry =>
                "this entry of the list is no signal node, or not above the one before",
            Meaning::NewRoom => "the room for the new program is shorter than the old program",
            Meaning::BadWord => "this word or parenthesis does not fit here",
            Meaning::BadName => "this name is unknown here, or bound twice",
            Meaning::BadNumber => "this constant or channel is out of range",
            Meaning::TextRoom => "the result is longer than the room for it",
            Meaning::NoLet =>
                "no let needs its own value of the same step: there is nothing to explain",
            Meaning::ChainRoom => "the room for the chain is not 1,008 entries",
            Meaning::PairingLength => "the pairing has not one entry for each new node",
            Meaning::PairingEntry => "this entry of the pairing is wrong",
            Meaning::EditionsDiffer => "the old and the new program are of different editions",
        })
    }
}

impl From<Refusal> for Meaning {
    fn from(r: Refusal) -> Meaning {
        match r {
            Refusal::ProgramLength => Meaning::ProgramLength,
            Refusal::CheckSum(_) => Meaning::CheckSum,
            Refusal::BlockNumber(_) => Meaning::BlockNumber,
            Refusal::RecordFault(_) => Meaning::RecordFault,
            Refusal::ShapeFault(_) => Meaning::ShapeFault,
            Refusal::ScopeFault(_) => Meaning::ScopeFault,
            Refusal::TypeFault(_) => Meaning::TypeFault,
            Refusal::NotReady(_) => Meaning::NotReady,
            Refusal::StateFault => Meaning::StateFault,
            Refusal::RecordsLength => Meaning::RecordsLength,
            Refusal::OutputLength => Meaning::OutputLength,
            Refusal::InputFault(_) => Meaning::InputFault,
            Refusal::TimeBack(_) => Meaning::TimeBack,
            Refusal::OtherProgram => Meaning::OtherProgram,
        }
    }
}

// A code: 1 to 29 by its meaning, and 33 to 40, which are 1 to 8 of the new program of two.
#[derive(Clone, Copy, Debug, PartialEq, Eq)]
pub enum Code {
    Of(Meaning),
    OfNew(Meaning),
}

// A number that is no code.
#[derive(Clone, Copy, Debug, PartialEq, Eq)]
pub struct NoCode;

impl TryFrom<u8> for Meaning {
    type Error = NoCode;

    fn try_from(number: u8) -> Result<Meaning, NoCode> {
        Ok(match number {
            1 => Meaning::ProgramLength,
            2 => Meaning::CheckSum,
            3 => Meaning::BlockNumber,
            4 => Meaning::RecordFault,
            5 => Meaning::ShapeFault,
            6 => Meaning::ScopeFault,
            7 => Meaning::TypeFault,
            8 => Meaning::NotReady,
            9 => Meaning::StateFault,
            10 => Meaning::RecordsLength,
            11 => Meaning::OutputLength,
            12 => Meaning::InputFault,
            13 => Meaning::TimeBack,
            15 => Meaning::OtherProgram,
            16 => Meaning::MendList,
            17 => Meaning::WatchList,
            18 => Meaning::WatchEntry,
            19 => Meaning::NewRoom,
            21 => Meaning::BadWord,
            22 => Meaning::BadName,
            23 => Meaning::BadNumber,
            24 => Meaning::TextRoom,
            25 => Meaning::NoLet,
            26 => Meaning::ChainRoom,
            27 => Meaning::PairingLength,
            28 => Meaning::PairingEntry,
            29 => Meaning::EditionsDiffer,
            _ => return Err(NoCode),
        })
    }
}

impl TryFrom<u8> for Code {
    type Error = NoCode;

    fn try_from(number: u8) -> Result<Code, NoCode> {
        match number {
            33..=40 => Ok(Code::OfNew(Meaning::try_from(number - 32)?)),
            _ => Ok(Code::Of(Meaning::try_from(number)?)),
        }
    }
}

impl fmt::Display for Code {
    fn fmt<W: fmt::Write>(&self, f: &mut fmt::Formatter<W>) -> fmt::Result {
        match self {
            Code::Of(meaning) => write!(f, "{meaning}"),
            Code::OfNew(meaning) => write!(f, "of the new program: {meaning}"),
        }
    }
}

// The most of a code's number.
const LAST_CODE: u8 = 40;

// tables codes [CODE]: each code with its sentence, or that of the code that is named.
pub fn list(rt: &HostRuntime) -> Result<(), Told> {
    let mut word = [0u8; 16];
    let n = given::word(rt, 2, &mut word);
    let word = &word[..n];
    let mut any = false;
    for number in 1..=LAST_CODE {
        if let Ok(code) = Code::try_from(number) {
            if is_wanted(word, number) {
                show(rt, format_args!("{number} {code}\n"))?;
                any = true;
            }
        }
    }
    if any {
        Ok(())
    } else {
        Err(misused(rt, Misuse::NoCode))
    }
}

// Is a code asked for, by a word that is empty or its number?
fn is_wanted(word: &[u8], number: u8) -> bool {
    let mut digits = [0u8; 20];
    let k = io::decimal(number as u64, &mut digits);
    word.is_empty() || word == &digits[..k]
}

// The word of a kind, and what stands before it; nothing where there is no such kind.
pub fn kind_word(rt: &HostRuntime, before: &str, number: u8) -> Result<(), Told> {
    match Kind::try_from(number) {
        Ok(kind) => show(rt, format_args!("{before}{kind}")),
        Err(_) => Ok(()),
    }
}

// How many records a program has.
pub fn records(p: &[u8]) -> usize
    ensures { result ≡ records p.now }
{
    p.len() / 512 * 42
}

// The kind of record r, where there is such a record.
pub fn kind_at(p: &[u8], r: usize) -> u8
    ensures { r < records p.now → result ≡ kind_at p.now r }
{
    if r < records(p) {
        let at = table::record_at(p, r);
        return p[at];
    }
    0
}

// How many nodes an accepted table has.
pub fn nodes(p: &[u8]) -> u32 {
    match watch::check(p) {
        Ok(found) => found.nodes,
        Err(_) => 0,
    }
}

// A record behind a word, with the word of its kind.
fn record_words(rt: &HostRuntime, word: &str, p: &[u8], place: u32) -> Result<(), Told> {
    show(rt, format_args!(": {word} {place}"))?;
    kind_word(rt, ", ", kind_at(p, place as usize))
}

// The place: a block, a record of the table or a node with the word of its kind.
fn place_words(rt: &HostRuntime, p: &[u8], r: Refusal) -> Result<(), Told> {
    match r {
        Refusal::CheckSum(block) => show(rt, format_args!(": block {block}")),
        Refusal::BlockNumber(block) => show(rt, format_args!(": block {block}")),
        Refusal::RecordFault(record) => record_words(rt, "record", p, record),
        Refusal::ShapeFault(node) => record_words(rt, "node", p, node),
        Refusal::ScopeFault(node) => record_words(rt, "node", p, node),
        Refusal::TypeFault(node) => record_words(rt, "node", p, node),
        Refusal::NotReady(node) => record_words(rt, "node", p, node),
        _ => Ok(()),
    }
}

// A line in words, for people; the line of numbers follows it.
fn told(rt: &HostRuntime, p: &[u8], code: Code, r: Refusal) -> Result<(), Told> {
    show(rt, code)?;
    place_words(rt, p, r)?;
    put(rt, b"\n")
}

// The refusal of a program: in words, and as the last line.
pub fn refused(rt: &HostRuntime, p: &[u8], r: Refusal) -> Result<(), Told> {
    told(rt, p, Code::Of(Meaning::from(r)), r)?;
    say::refused(rt, r)
}

// The same for the new program of two, whose codes have 32 added.
pub fn refused_new(rt: &HostRuntime, p: &[u8], r: Refusal) -> Result<(), Told> {
    let meaning = Meaning::from(r);
    told(rt, p, Code::OfNew(meaning), r)?;
    say::refused_at(rt, meaning as u8 + 32, rules::place_of(r))
}

// The same for a refusal whose place is not said in words.
pub fn refused_alone(rt: &HostRuntime, meaning: Meaning, place: u32) -> Result<(), Told> {
    show(rt, format_args!("{meaning}\n"))?;
    say::refused_at(rt, meaning as u8, place)
}
