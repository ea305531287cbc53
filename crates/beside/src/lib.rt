// A watched run beside the plain one: definitions in specs/, theorems in proofs/. They know nothing of the code.
#![tactic(auto)]

// The one function of the crate, so that its theorems are checked with it.
pub fn same(x: u32) -> u32 {
    x
}
