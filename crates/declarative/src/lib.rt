// The rules of format, shape, scope, types and readiness as sentences and as inference rules: what check accepts is exactly what meets them
// (proofs/AcceptedExactly.antt). Theorems about the definitions of crate rules; they know nothing of the code.
#![tactic(auto)]

// The one function of the crate, so that its theorems are checked with it.
pub fn same(x: u32) -> u32 {
    x
}
