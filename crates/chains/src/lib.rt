// Why a let is not ready: the chain of nodes from its definition down to the use of its own variable. The answer of the call; definitions in
// specs/, theorems in proofs/. They know nothing of the code.
#![tactic(auto)]

ghost use Rattle.std.specs.Prelude.{◌≡◌};
ghost use Rattle.chains.specs.declared.NoChain.{NoChain};

use rules::Refusal;

// The chain that explain writes: the let that it is of, and how many entries it has.
#[derive(Clone, Copy)]
pub struct Chain {
    pub of: u32,
    pub entries: u32,
}

// Why explain writes no chain: a program that codes 1-7 refuse; no let to explain; a room of the wrong length.
#[derive(Clone, Copy)]
pub enum NoChain {
    Refused(Refusal),
    NoLet,
    RoomLength,
}

impl From<Refusal> for NoChain {
    ghost from_gives = { λ r e. e ≡ NoChain.Refused r };

    fn from(r: Refusal) -> NoChain {
        NoChain::Refused(r)
    }
}
