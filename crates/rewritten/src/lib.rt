// Programs renumbered and tidied are accepted and answer alike. The answer of the calls of request m; definitions in specs/, theorems in
// proofs/. They know nothing of the code.
#![tactic(auto)]

ghost use Rattle.std.specs.Prelude.{◌≡◌};
ghost use Rattle.rewritten.specs.declared.Untidied.{Untidied};

use rules::Refusal;

// Why tidy makes no new table: a program that codes 1-8 refuse; a room that is too short. Else it answers the new table's size.
#[derive(Clone, Copy)]
pub enum Untidied {
    Refused(Refusal),
    RoomShort,
}

impl From<Refusal> for Untidied {
    ghost from_gives = { λ r e. e ≡ Untidied.Refused r };

    fn from(r: Refusal) -> Untidied {
        Untidied::Refused(r)
    }
}
