// Bringing a state back: what of it is kept and what is put to start. The answer of the call; definitions in specs/, theorems in proofs/. They
// know nothing of the code.
#![tactic(auto)]

ghost use Rattle.std.specs.Prelude.{◌≡◌};
ghost use Rattle.mends.specs.declared.Unmended.{Unmended};

use rules::Refusal;

// Why mend brings no state back: a refusal (codes 1-9 and 15); a list's room of the wrong length (16). Else it answers how many entries it listed.
#[derive(Clone, Copy)]
pub enum Unmended {
    Refused(Refusal),
    ListLength,
}

impl From<Refusal> for Unmended {
    ghost from_gives = { λ r e. e ≡ Unmended.Refused r };

    fn from(r: Refusal) -> Unmended {
        Unmended::Refused(r)
    }
}
