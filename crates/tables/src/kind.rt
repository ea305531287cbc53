// The kinds of a record, in words, and where a node stands that one of a kind holds.
use std::fmt;

// A kind, by the paper's number for it.
#[derive(Clone, Copy, Debug, PartialEq, Eq)]
pub enum Kind {
    Input,
    Time,
    Ext,
    Delay,
    LetSignal,
    Switch,
    LetContinue,
    Until,
    Branch,
    Case,
    Variable,
    Constant,
    Add,
    Subtract,
    Multiply,
    Divide,
    Less,
    Equal,
    Not,
    And,
    Or,
    If,
    Just,
    Take,
}

// A number of no kind.
#[derive(Clone, Copy, Debug, PartialEq, Eq)]
pub struct NoKind;

impl TryFrom<u8> for Kind {
    type Error = NoKind;

    fn try_from(number: u8) -> Result<Kind, NoKind> {
        Ok(match number {
            1 => Kind::Input,
            2 => Kind::Time,
            3 => Kind::Ext,
            4 => Kind::Delay,
            5 => Kind::LetSignal,
            6 => Kind::Switch,
            7 => Kind::LetContinue,
            8 => Kind::Until,
            9 => Kind::Branch,
            10 => Kind::Case,
            16 => Kind::Variable,
            17 => Kind::Constant,
            18 => Kind::Add,
            19 => Kind::Subtract,
            20 => Kind::Multiply,
            21 => Kind::Divide,
            22 => Kind::Less,
            23 => Kind::Equal,
            24 => Kind::Not,
            25 => Kind::And,
            26 => Kind::Or,
            27 => Kind::If,
            28 => Kind::Just,
            29 => Kind::Take,
            _ => return Err(NoKind),
        })
    }
}

impl fmt::Display for Kind {
    fn fmt<W: fmt::Write>(&self, f: &mut fmt::Formatter<W>) -> fmt::Result {
        f.write_str(match self {
            Kind::Input => "input",
            Kind::Time => "time",
            Kind::Ext => "ext",
            Kind::Delay => "delay",
            Kind::LetSignal => "let signal",
            Kind::Switch => "switch",
            Kind::LetContinue => "let continue",
            Kind::Until => "until",
            Kind::Branch => "branch",
            Kind::Case => "case",
            Kind::Variable => "variable",
            Kind::Constant => "constant",
            Kind::Add => "add",
            Kind::Subtract => "subtract",
            Kind::Multiply => "multiply",
            Kind::Divide => "divide",
            Kind::Less => "less",
            Kind::Equal => "equal",
            Kind::Not => "not",
            Kind::And => "and",
            Kind::Or => "or",
            Kind::If => "if",
            Kind::Just => "just",
            Kind::Take => "take",
        })
    }
}

impl Kind {
    // The paper's words for a field (0, 1 or 2) of a signal, a branch and some operations; none for those of all other operations.
    pub fn field_words(self, field: u8) -> Option<&'static str> {
        match (self, field) {
            (Kind::Ext, _) => Some("expression of ext"),
            (Kind::LetSignal, 0) => Some("definition of let"),
            (Kind::LetSignal, _) => Some("body of let"),
            (Kind::Switch, 0) => Some("first of switch"),
            (Kind::Switch, _) => Some("second of switch"),
            (Kind::LetContinue, 0) => Some("body of let continue"),
            (Kind::LetContinue, _) => Some("first branch of let continue"),
            (Kind::Until, _) => Some("signal of until"),
            (Kind::Branch, 0) => Some("body of branch"),
            (Kind::Branch, _) => Some("next branch after branch"),
            (Kind::Not, _) => Some("operand of not"),
            (Kind::If, 0) => Some("test of if"),
            (Kind::If, 1) => Some("first arm of if"),
            (Kind::If, _) => Some("second arm of if"),
            (Kind::Just, _) => Some("operand of just"),
            (Kind::Take, 0) => Some("maybe of take"),
            (Kind::Take, 1) => Some("arm for absent of take"),
            (Kind::Take, _) => Some("arm for present of take"),
            _ => None,
        }
    }
}
