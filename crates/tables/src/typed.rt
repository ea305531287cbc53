// tables read TEXT [TABLE]: checks a table as it is typed, and writes its blocks to the file TABLE, where one is named; what check says of it,
// and END with its nodes and its length. A refusal is told as an editor shows it: the file, line and column of its place, the sentence, the
// line itself and a mark under the place, and then REFUSED; nothing is written.
// tables print TABLE: an accepted table as text.
use crate::codes::Meaning;
use crate::files::{PROGRAM, argument, written};
use crate::here::point;
use crate::say::{Misuse, Told, misused, put, show};
use crate::{codes, given, say};
use rules::{Checked, Refusal};
use spots::{column, spot_of};
use texts::{NoTable, NoText};
use written::TableSize;

// A text is at most so many bytes; the room for one has a byte more, which tells that the file is longer.
const MOST_TEXT: usize = 262144;

pub fn read(rt: &HostRuntime) -> Result<(), Told> {
    let mut text = [0u8; MOST_TEXT + 1];
    let n = argument(rt, 2, &mut text)?;
    if n > MOST_TEXT {
        return Err(misused(rt, Misuse::LongText));
    }
    taken(rt, &text[..n])
}

// Says the answer.
fn taken(rt: &HostRuntime, text: &[u8]) -> Result<(), Told> {
    let mut room = [0u8; 12288];
    match reading::read(text, &mut room) {
        Ok(size) => made(
            rt,
            feed::first(&room, size.bytes as usize),
            size.nodes,
            size.bytes,
        ),
        Err(NoTable::BadWord(at)) => shown(rt, text, Meaning::BadWord, at),
        Err(NoTable::BadName(at)) => shown(rt, text, Meaning::BadName, at),
        Err(NoTable::BadNumber(at)) => shown(rt, text, Meaning::BadNumber, at),
        Err(NoTable::RoomShort) => codes::refused_alone(rt, Meaning::TextRoom, 0),
        Err(NoTable::Refused(r)) => judged(rt, text, r),
    }
}

// Writes the table, where its file is named, and says what check says of it.
fn made(rt: &HostRuntime, table: &[u8], nodes: u32, length: u32) -> Result<(), Told> {
    if given::count(rt) > 3 {
        written(rt, 3, table)?;
    }
    match watch::check(table) {
        Ok(found) => {
            say::accepted(rt, found.nodes, found.cells, found.bound, found.root)?;
            say::channels(rt, channels::named_channels(table))?;
            say::ended(rt, nodes, length)
        }
        Err(r) => codes::refused(rt, table, r),
    }
}

// Says the name of the text's file, and line and column of a position in it; answers where its line begins.
fn named(rt: &HostRuntime, text: &[u8], at: usize) -> Result<usize, Told> {
    let mut path = io::buffer();
    let n = given::word(rt, 2, &mut path);
    put(rt, &path[..n])?;
    let place = spot_of(text, at);
    show(
        rt,
        format_args!(":{}:{}: ", place.line, column(text, place.start, at)),
    )?;
    Ok(place.start)
}

// A text code at its position.
fn shown(rt: &HostRuntime, text: &[u8], meaning: Meaning, at: u32) -> Result<(), Told> {
    let start = named(rt, text, at as usize)?;
    show(rt, meaning)?;
    if at as usize == text.len() {
        put(rt, b": the text ends here")?;
    }
    put(rt, b"\n")?;
    point(rt, text, start, at as usize)?;
    say::refused_at(rt, meaning as u8, at)
}

// A code of the check, at the place where its node begins.
fn judged(rt: &HostRuntime, text: &[u8], r: Refusal) -> Result<(), Told> {
    let node = rules::place_of(r);
    match reading::node_position(text, node as usize) {
        Some(at) => at_node(rt, text, r, node, at),
        None => say::refused(rt, r),
    }
}

fn at_node(rt: &HostRuntime, text: &[u8], r: Refusal, node: u32, at: u32) -> Result<(), Told> {
    let start = named(rt, text, at as usize)?;
    show(rt, format_args!("{}: node {node}\n", Meaning::from(r)))?;
    point(rt, text, start, at as usize)?;
    say::refused(rt, r)
}

pub fn print(rt: &HostRuntime) -> Result<(), Told> {
    let mut program = [0u8; PROGRAM];
    let n = argument(rt, 2, &mut program)?;
    printed(rt, &program[..n])
}

// Says the text: no text is longer than the room.
fn printed(rt: &HostRuntime, table: &[u8]) -> Result<(), Told> {
    let mut room = [0u8; 107868];
    match typeset::print(table, &mut room) {
        Ok(length) => put(rt, feed::first(&room, length as usize)),
        Err(NoText::Refused(r)) => codes::refused(rt, table, r),
        Err(NoText::RoomShort) => codes::refused_alone(rt, Meaning::TextRoom, 0),
    }
}
