// tables mend TABLE STATE: brings a state back after a bad memory card. Writes the mended state in the file's place, says what changed, a line
// for the time and each cell, and END with how many there are and how many cells the state has; or a refusal in words, and then REFUSED. A
// state that is well-formed, or refused, is left as it stands.
ghost use Rattle.std.specs.Prelude.{◌≡◌, IfSome};
ghost use Rattle.rules.specs.Layout.{has_cell};
ghost use Rattle.tables.specs.Owners.{CellOf};

use crate::codes::Meaning;
use crate::files::{PROGRAM, argument, written};
use crate::say::{Misuse, Told, misused, put, show};
use crate::{codes, given, say};
use mends::Unmended;
use rules::Checked;

// A state is at most 8,072 bytes; one byte more tells that a file is longer.
pub fn mend(rt: &HostRuntime) -> Result<(), Told> {
    let mut program = [0u8; PROGRAM];
    let n = argument(rt, 2, &mut program)?;
    if !is_file(rt) {
        return Err(misused(rt, Misuse::NoFile));
    }
    let mut state = [0u8; 8073];
    let held = argument(rt, 3, &mut state)?;
    checked(rt, &program[..n], &mut state[..held])
}

// The state is a file, since it is written back.
fn is_file(rt: &HostRuntime) -> bool {
    let mut path = io::buffer();
    let n = given::word(rt, 3, &mut path);
    &path[..n] != b"-".as_slice()
}

// The check of the program says how many cells the list is for: one entry more.
fn checked(rt: &HostRuntime, p: &[u8], state: &mut [u8]) -> Result<(), Told> {
    match watch::check(p) {
        Ok(found) => {
            let mut list = [0u16; 1009];
            match list.get_mut(..found.cells as usize + 1) {
                Some(part) => answered(rt, p, state, part, found.cells),
                None => Ok(()),
            }
        }
        Err(r) => codes::refused(rt, p, r),
    }
}

// Says the answer.
fn answered(
    rt: &HostRuntime,
    p: &[u8],
    state: &mut [u8],
    list: &mut [u16],
    cells: u32,
) -> Result<(), Told> {
    match mend::mend(p, state, list) {
        Ok(count) => put_back(
            rt,
            p,
            state,
            feed::first(list, count as usize),
            count,
            cells,
        ),
        Err(Unmended::Refused(r)) => codes::refused(rt, p, r),
        Err(Unmended::ListLength) => codes::refused_alone(rt, Meaning::MendList, 0),
    }
}

// Writes the state where something changed, and says what, and the end.
fn put_back(
    rt: &HostRuntime,
    p: &[u8],
    state: &[u8],
    changed: &[u16],
    count: u32,
    cells: u32,
) -> Result<(), Told> {
    if count > 0 {
        written(rt, 3, state)?;
    }
    for &k in changed {
        entry(rt, p, k)?;
    }
    say::ended(rt, count, cells)
}

// The line of an entry.
fn entry(rt: &HostRuntime, p: &[u8], k: u16) -> Result<(), Told> {
    if k == u16::MAX {
        return put(rt, b"time\n");
    }
    let n = node_of(p, usize::from(k)).unwrap_or(codes::records(p));
    show(rt, format_args!("cell {k} node {n}"))?;
    codes::kind_word(rt, " ", codes::kind_at(p, n))?;
    put(rt, b"\n")
}

// The node of cell k: the record of kind 4, 6 or 7 that has k such records before it.
fn node_of(p: &[u8], k: usize) -> Option<usize>
    ensures { IfSome result (λ n. CellOf p.now k n) }
{
    let mut seen: usize = 0;
    for n in 0..codes::records(p) {
        if has_cell(codes::kind_at(p, n)) {
            if seen == k {
                return Some(n);
            }
            seen += 1;
        }
    }
    None
}

// Nodes of kind 4, 6 and 7 have a cell.
#[tactic(auto, using(crate::proofs::CellLaws::with_cells))]
fn has_cell(kind: u8) -> bool
    ensures { result ≡ has_cell kind }
{
    matches!(kind, 4 | 6 | 7)
}
