// The memory of definitions' outcomes in lent slots: definitions in specs/, laws by the kind of a signal in proofs/. WIP of evaluate.
#![tactic(auto)]

// The one function of the crate, so that its theorems are checked with it.
pub fn same(x: u32) -> u32 {
    x
}
