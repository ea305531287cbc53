// Watching signals inside a table: the values that listed nodes give while the root is evaluated. The answer of the call; definitions in specs/,
// theorems in proofs/. They know nothing of the code.
#![tactic(auto)]

// Why a watched run does not begin, though the program is accepted: a list that has not 1 to 8 entries (17), or its first entry that is no signal
// node or not above the one before (18). Else it answers as the plain run does.
#[derive(Clone, Copy)]
pub enum ListFault {
    ListLength,
    ListEntry(u32),
}
