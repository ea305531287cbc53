// tables check FILE: the first line of watchrun and the channels that the table names; or a refusal in words, and then REFUSED.
use crate::files::{PROGRAM, argument};
use crate::say::Told;
use crate::{codes, say};
use rules::Checked;

pub fn check(rt: &HostRuntime) -> Result<(), Told> {
    let mut program = [0u8; PROGRAM];
    let n = argument(rt, 2, &mut program)?;
    let table = &program[..n];
    match watch::check(table) {
        Ok(found) => {
            say::accepted(rt, found.nodes, found.cells, found.bound, found.root)?;
            say::channels(rt, channels::named_channels(table))
        }
        Err(r) => codes::refused(rt, table, r),
    }
}
