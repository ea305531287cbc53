// tables why FILE: the chain of the let that code 8 names, a line for each node, and END with the let and how many there are; or a refusal
// in words, and then REFUSED.
ghost use Rattle.std.specs.Prelude.{◌≡◌, ◌<◌};
ghost use Rattle.rules.specs.Layout.{records};
ghost use Rattle.tables.specs.Fields.{first_field, held_by};

use crate::codes::Meaning;
use crate::files::{PROGRAM, argument};
use crate::kind::Kind;
use crate::say::{Told, show};
use crate::{codes, say};
use chains::{Chain, NoChain};
use rules::Node;

pub fn why(rt: &HostRuntime) -> Result<(), Told> {
    let mut program = [0u8; PROGRAM];
    let n = argument(rt, 2, &mut program)?;
    explained(rt, &program[..n])
}

// Says the answer.
fn explained(rt: &HostRuntime, p: &[u8]) -> Result<(), Told> {
    let mut room = [0u16; 1008];
    match explain::explain(p, &mut room) {
        Ok(found) => chain(
            rt,
            p,
            feed::first(&room, found.entries as usize),
            found.of,
            found.entries,
        ),
        Err(NoChain::Refused(r)) => codes::refused(rt, p, r),
        Err(NoChain::NoLet) => codes::refused_alone(rt, Meaning::NoLet, 0),
        Err(NoChain::RoomLength) => codes::refused_alone(rt, Meaning::ChainRoom, 0),
    }
}

// Says each node of a chain below the one before, the first below the let, and the end.
fn chain(rt: &HostRuntime, p: &[u8], nodes: &[u16], x: u32, entries: u32) -> Result<(), Told> {
    let mut above = x;
    for &node in nodes {
        let here = u32::from(node);
        entry(rt, p, above, here)?;
        above = here;
    }
    say::ended(rt, x, entries)
}

// The line of a node below another.
fn entry(rt: &HostRuntime, p: &[u8], above: u32, here: u32) -> Result<(), Told> {
    let field = held_by(p, above as usize, here as usize);
    show(rt, here)?;
    codes::kind_word(rt, " ", codes::kind_at(p, here as usize))?;
    held_words(rt, codes::kind_at(p, above as usize), field)?;
    show(rt, format_args!(" {above}\n"))
}

// The first field of a record that is m: 0 for a, 1 for b, 2 for c; 3 if none is. (A number, as the definition first_field has it.)
fn first_field(n: Node, m: usize) -> u8
    ensures { result ≡ first_field n.a n.b n.c m }
{
    if n.a == m {
        return 0;
    }
    if n.b == m {
        return 1;
    }
    if n.c == m {
        return 2;
    }
    3
}

// The field of record i that holds m, where there is such a record.
fn held_by(p: &[u8], i: usize, m: usize) -> u8
    ensures { i < records p.now → result ≡ held_by p.now i m }
{
    if i < codes::records(p) {
        let at = table::record_at(p, i);
        return first_field(table::read(p, at), m);
    }
    3
}

// Where a node stands that one of a kind holds by a field; of most operations by their word.
fn held_words(rt: &HostRuntime, kind: u8, field: u8) -> Result<(), Told> {
    match Kind::try_from(kind)
        .ok()
        .and_then(|known| known.field_words(field))
    {
        Some(words) => show(rt, format_args!(": {words}")),
        None => {
            let side = if field == 0 { "left" } else { "right" };
            show(rt, format_args!(": {side} operand of"))?;
            codes::kind_word(rt, " ", kind)
        }
    }
}
