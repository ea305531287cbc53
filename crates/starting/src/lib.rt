// The start of a program that was accepted, for the call start and for a program that makes its steps one by one.
#![tactic(auto)]

ghost use Rattle.std.specs.Prelude.{◌≡◌};
ghost use Rattle.rules.specs.Layout.{nodes};
ghost use Rattle.rules.specs.Accepted.{Accepted};
ghost use Rattle.starting.specs.Begun.{Begun};

use cells::{cell_at, index_cells};
use rules::Refusal;
use state::fill_start;

// The room that every state fits in: one of 1,008 cells.
pub const MOST_STATE: usize = 8072;

// The table of the program's cells and its start state, if the room for that is of the right length.
pub fn begin(p: &[u8], index: &mut [u16; 10080], st: &mut [u8], count: usize) -> Result<(), Refusal>
    requires { Accepted p.now × (count ≡ nodes p.now) }
    ensures { Begun p.now index.new st.old st.new result }
{
    let held = index_cells(p, index, count);
    if st.len() != cell_at(held) {
        return Err(Refusal::StateFault);
    }
    fill_start(p, index, st, count);
    Ok(())
}
