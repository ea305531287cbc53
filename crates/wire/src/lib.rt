// The requests and the answers of the programs as bytes: header lines, answer lines, numbers in decimal.
#![tactic(auto)]

mod answer;
mod digits;
mod guess;
mod header;
mod text;

pub use answer::{
    checked_line, explained_line, mended_line, paired_line, printed_line, ran_line, read_line,
    started_line, tidied_line, watched_line,
};
pub use digits::hex;
pub use header::request_of;
pub use text::{put, put_field, put_number};

// A request by its header line: the call and the lengths of its lent memory; of a chain's room, mend's list and a pairing, how many entries they
// have. (A line has 64 bytes: a watch's state and list are shorter than 65,536.)
#[derive(Clone, Copy)]
pub enum Request {
    Check(u32),
    Start(u32, u32),
    Run(u32, u32, u32, u32),
    Watch(u32, u16, u16, u32, u32, u32),
    Chain(u32, u16),
    Mend(u32, u32, u16),
    Tidy(u32, u32),
    Pair(u32, u32, u16),
    Read(u32, u32),
    Print(u32, u32),
}
