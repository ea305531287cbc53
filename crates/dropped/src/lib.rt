// Tables with unused lets dropped: the new answers as the old. Why the call that judges a pairing refuses it; definitions in specs/, theorems in
// proofs/. They know nothing of the code.
#![tactic(auto)]

ghost use Rattle.std.specs.Prelude.{◌≡◌};
ghost use Rattle.dropped.specs.Clauses.{number_of};

use rules::Refusal;

// Why the new table is not the old one with unused lets dropped, as the pairing says: the old or the new program's first fault, other editions,
// a pairing of the wrong length, or its first wrong entry.
#[derive(Clone, Copy)]
pub enum Unpaired {
    OldRefused(Refusal),
    NewRefused(Refusal),
    EditionsDiffer,
    PairingLength,
    EntryWrong(u32),
}

// What an entry of a pairing can break, in the order of the sentence's words: it names an old node, of the same kind, type and plain fields, with a
// next where that has one; its children, binder and target are paired with the old ones; the last one is reached from the old root.
#[derive(Clone, Copy)]
pub enum Clause {
    OldNode,
    PlainFields,
    Next,
    ChildA,
    ChildB,
    ChildC,
    Named,
    Root,
}

impl Clause {
    // The clause's number in that order, from 1.
    pub fn number(self) -> u8
        ensures { result ≡ number_of self }
    {
        match self {
            Clause::OldNode => 1,
            Clause::PlainFields => 2,
            Clause::Next => 3,
            Clause::ChildA => 4,
            Clause::ChildB => 5,
            Clause::ChildC => 6,
            Clause::Named => 7,
            Clause::Root => 8,
        }
    }
}
