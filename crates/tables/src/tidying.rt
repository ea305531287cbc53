// tables tidy OLD NEW [PAIRING]: the old table without the lets that nobody uses, to the file NEW, and for each new node its old one, two
// bytes each, to the file PAIRING; how many nodes and lets went, and END with the nodes of both; or a refusal in words, and then REFUSED.
ghost use Rattle.std.specs.Prelude.{◌≡◌};
ghost use Rattle.tables.specs.Lets.{lets_of};

use crate::codes::Meaning;
use crate::files::{PROGRAM, argument, written};
use crate::say::{Told, show};
use crate::{codes, given, say};
use rewritten::Untidied;
use written::TableSize;

pub fn tidy(rt: &HostRuntime) -> Result<(), Told> {
    let mut program = [0u8; PROGRAM];
    let n = argument(rt, 2, &mut program)?;
    tidied(rt, &program[..n])
}

// Says the answer.
fn tidied(rt: &HostRuntime, old: &[u8]) -> Result<(), Told> {
    let mut room = [0u8; 12288];
    match tidy::tidy(old, &mut room) {
        Ok(size) => made(rt, old, feed::first(&room, size.bytes as usize), size.nodes),
        Err(Untidied::Refused(r)) => codes::refused(rt, old, r),
        Err(Untidied::RoomShort) => codes::refused_alone(rt, Meaning::NewRoom, 0),
    }
}

// Writes the pairing, where its file is named, then the table, and says what went.
fn made(rt: &HostRuntime, old: &[u8], new: &[u8], nodes: u32) -> Result<(), Told> {
    if given::count(rt) > 4 {
        paired(rt, old)?;
    }
    written(rt, 3, new)?;
    let before = codes::nodes(old);
    let gone = before.saturating_sub(nodes);
    let gone_lets = lets(old).saturating_sub(lets(new));
    show(
        rt,
        format_args!("{gone} nodes went, {gone_lets} of them lets\n"),
    )?;
    say::ended(rt, before, nodes)
}

// Writes for each new node its old one. (Whoever calls has tidied the table: it is not refused here.)
fn paired(rt: &HostRuntime, old: &[u8]) -> Result<(), Told> {
    let mut room = [0u16; 1008];
    let mut bytes = [0u8; 2016];
    match tidy::pairing_of(old, &mut room) {
        Ok(size) => {
            feed::give_entries(&room, &mut bytes);
            written(rt, 4, feed::first(&bytes, 2 * (size.nodes as usize)))
        }
        Err(Untidied::Refused(_)) => Err(Told),
        Err(Untidied::RoomShort) => Err(Told),
    }
}

// The kind of lets.
const LET: u8 = 5;

// How many lets a table has.
fn lets(p: &[u8]) -> u32
    ensures { result ≡ lets_of p.now }
{
    if p.len() > 12288 {
        return 0;
    }
    let mut n: u32 = 0;
    for i in 0..codes::records(p) {
        if codes::kind_at(p, i) == LET {
            n += 1;
        }
    }
    n
}
