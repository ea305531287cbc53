// An update that takes each let's definition from the evaluation that went before it, and that it is the update of crate current: definitions in
// specs/, theorems in proofs/. They know nothing of the code.
#![tactic(auto)]

// The one function of the crate, so that its theorems are checked with it.
pub fn same(x: u32) -> u32 {
    x
}
