// The text form: why a text is not read, and what its two calls answer. Definitions in specs/, theorems in proofs/. They know nothing of the
// code.
#![tactic(auto)]

ghost use Rattle.std.specs.Prelude.{◌≡◌};
ghost use Rattle.texts.specs.declared.NoTable.{NoTable};
ghost use Rattle.texts.specs.declared.NoText.{NoText};

use rules::Refusal;

// Why a text is not read, and the position: a word or parenthesis that does not fit; a name that is unknown or bound twice; a constant or
// channel that is out of range.
#[derive(Clone, Copy)]
pub enum Unread {
    Word(usize),
    Name(usize),
    Range(usize),
}

// Why reading a text gives no table: a text code with its position; too little room; a fault that the check finds in the program. Else it
// answers the table's size.
#[derive(Clone, Copy)]
pub enum NoTable {
    BadWord(u32),
    BadName(u32),
    BadNumber(u32),
    RoomShort,
    Refused(Refusal),
}

impl From<Refusal> for NoTable {
    ghost from_gives = { λ r e. e ≡ NoTable.Refused r };

    fn from(r: Refusal) -> NoTable {
        NoTable::Refused(r)
    }
}

// Why printing a program gives no text: a fault that the check finds; too little room. Else it answers the length of the text in bytes.
#[derive(Clone, Copy)]
pub enum NoText {
    Refused(Refusal),
    RoomShort,
}

impl From<Refusal> for NoText {
    ghost from_gives = { λ r e. e ≡ NoText.Refused r };

    fn from(r: Refusal) -> NoText {
        NoText::Refused(r)
    }
}
