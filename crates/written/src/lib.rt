// A tree written as a table, children first in field order, reads back: how large the table is, and theorems about the definitions of crate
// rules, in proofs/. They know nothing of the code.
#![tactic(auto)]

// How large a table is: its nodes, and its length in bytes.
#[derive(Clone, Copy)]
pub struct TableSize {
    pub nodes: u32,
    pub bytes: u32,
}

// The one function of the crate, so that its theorems are checked with it.
pub fn same(x: u32) -> u32 {
    x
}
