// Printing a program and reading its text (document 02, b): what the paragraph promises of both calls, stated in specs/ and proved in proofs/.
// They know nothing of the code.
#![tactic(auto)]

// The one function of the crate, so that its theorems are checked with it.
pub fn same(x: u32) -> u32 {
    x
}
