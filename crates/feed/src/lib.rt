// Standard input and output in large pieces, by buffers that the program lends, and numbers of 16 bits as bytes. No function has a `requires` that
// depends on what is read.
#![tactic(auto)]

mod entries;
mod input;
mod output;
mod retried;

pub use entries::{give_entries, take_entries};
pub use input::{Reader, first};
pub use output::{Writer, write};
