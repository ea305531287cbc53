// tables pair OLD NEW PAIRING: END with the nodes of both tables where the new one is the old one with unused lets dropped, as the pairing
// says; or a refusal in words, and then REFUSED.
use crate::codes::Meaning;
use crate::files::{PROGRAM, argument};
use crate::say::{Misuse, Told, misused, put, show};
use crate::{codes, say};
use dropped::{Clause, Unpaired};

// A pairing is at most 1,008 entries; one more tells that a file is longer.
pub fn pair(rt: &HostRuntime) -> Result<(), Told> {
    let mut old = [0u8; PROGRAM];
    let n = argument(rt, 2, &mut old)?;
    let mut new = [0u8; PROGRAM];
    let m = argument(rt, 3, &mut new)?;
    let mut bytes = [0u8; 2018];
    let k = argument(rt, 4, &mut bytes)?;
    if k % 2 != 0 {
        return Err(misused(rt, Misuse::HalfEntry));
    }
    let mut room = [0u16; 1009];
    let entries = feed::take_entries(&bytes[..k], &mut room);
    answered(rt, &old[..n], &new[..m], feed::first(&room, entries))
}

// Says the answer.
fn answered(rt: &HostRuntime, old: &[u8], new: &[u8], pairs: &[u16]) -> Result<(), Told> {
    match pairing::paired(old, new, pairs) {
        Ok(()) => say::ended(rt, codes::nodes(old), codes::nodes(new)),
        Err(Unpaired::OldRefused(r)) => codes::refused(rt, old, r),
        Err(Unpaired::NewRefused(r)) => codes::refused_new(rt, new, r),
        Err(Unpaired::EditionsDiffer) => codes::refused_alone(rt, Meaning::EditionsDiffer, 0),
        Err(Unpaired::PairingLength) => codes::refused_alone(rt, Meaning::PairingLength, 0),
        Err(Unpaired::EntryWrong(i)) => wrong(rt, old, new, pairs, i),
    }
}

// A wrong entry: its node, the old node that it names, and which clause it breaks.
fn wrong(rt: &HostRuntime, old: &[u8], new: &[u8], pairs: &[u16], i: u32) -> Result<(), Told> {
    let meaning = Meaning::PairingEntry;
    show(rt, format_args!("{meaning}: entry {i}"))?;
    codes::kind_word(rt, ", ", codes::kind_at(new, i as usize))?;
    let named = entry(pairs, i as usize);
    show(rt, format_args!(", paired with {named}"))?;
    codes::kind_word(rt, ", ", codes::kind_at(old, named as usize))?;
    put(
        rt,
        broken(pairing::clause(old, new, pairs, i as usize)).as_bytes(),
    )?;
    put(rt, b"\n")?;
    say::refused_at(rt, meaning as u8, i)
}

// An entry, where there is one.
pub fn entry(pairs: &[u16], i: usize) -> u16 {
    pairs.get(i).copied().unwrap_or(u16::MAX)
}

// What an entry has to meet and this one does not.
fn broken(clause: Option<Clause>) -> &'static str {
    match clause {
        Some(Clause::OldNode) => ": it names no old node",
        Some(Clause::PlainFields) => ": the old node is of another kind, type, channel or value",
        Some(Clause::Next) => ": one of the two nodes has a next, and the other has none",
        Some(Clause::ChildA) =>
            ": its first child is not paired with the old one, nor with what that leads to through lets",
        Some(Clause::ChildB) =>
            ": its second child is not paired with the old one, nor with what that leads to through lets",
        Some(Clause::ChildC) =>
            ": its third child is not paired with the old one, nor with what that leads to through lets",
        Some(Clause::Named) => ": its binder or target is not paired with the old one",
        Some(Clause::Root) =>
            ": the last node is not paired with the old last one, nor with what that leads to through lets",
        None => "",
    }
}
