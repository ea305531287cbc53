// The plain types that the rules speak of, and the paper's numbers for them. The rules themselves are in specs/.
#![tactic(auto)]

ghost use Rattle.std.specs.Prelude.{◌≡◌};
ghost use Rattle.rules.specs.Answers.{code_of, place_of};

pub const UNIT: u8 = 1;

pub const BOOL: u8 = 2;

pub const INT: u8 = 3;

pub const MAYBE: u8 = 4;

pub const NO_NEXT: u16 = 65535;

// No step: none in which a number wrapped.
pub const NO_STEP: u32 = 65535;

// A value: its type code and its word, unsigned two's complement. Types 1-3 are Plain; 5-7 are Absent or Present.
#[derive(Clone, Copy)]
pub enum Value {
    Plain(u8, u32),
    Absent(u8),
    Present(u8, u32),
}

// What an evaluation or an update has counted, and whether a number in it wrapped.
#[derive(Clone, Copy)]
pub struct Tally {
    pub work: u64,
    pub wrapped: bool,
}

// The fields of a node's record: kind, type, a, b, c, word.
#[derive(Clone, Copy)]
pub struct Node {
    pub kind: u8,
    pub ty: u8,
    pub a: usize,
    pub b: usize,
    pub c: usize,
    pub word: u32,
}

// Why a call refuses, with the place where the paper names one.
#[derive(Clone, Copy)]
pub enum Refusal {
    ProgramLength,
    CheckSum(u32),
    BlockNumber(u32),
    RecordFault(u32),
    ShapeFault(u32),
    ScopeFault(u32),
    TypeFault(u32),
    NotReady(u32),
    StateFault,
    RecordsLength,
    OutputLength,
    InputFault(u32),
    TimeBack(u32),
    OtherProgram,
}

// What check says of a program that it accepts: nodes, cells, bound, root type.
#[derive(Clone, Copy)]
pub struct Checked {
    pub nodes: u32,
    pub cells: u32,
    pub bound: u32,
    pub root: u8,
}

// What run says of a run to its end: steps done, work and the first step in which a number wrapped, NO_STEP if none.
#[derive(Clone, Copy)]
pub struct Ran {
    pub steps: u32,
    pub work: u32,
    pub wrapped: u32,
}

// Why a run was refused, with the work of the steps done and the first of them in which a number wrapped, NO_STEP if none.
#[derive(Clone, Copy)]
pub struct Stopped {
    pub why: Refusal,
    pub work: u32,
    pub wrapped: u32,
}

// A run that is refused before its first record.
impl From<Refusal> for Stopped {
    ghost from_gives = { λ r s. s ≡ record { why = r; work = 0; wrapped = 65535 } };

    fn from(why: Refusal) -> Stopped {
        Stopped {
            why,
            work: 0,
            wrapped: NO_STEP,
        }
    }
}

// What a field a, b or c of a record is.
#[derive(Clone, Copy)]
pub enum Field {
    Unused,
    Channel,
    PresentByte,
    Signal,
    Expression,
    FirstBranch,
    NextBranch,
    FirstCase,
    NextCase,
    Binder,
    Target,
}

// What the type of a record is: zero, any type, a plain type, or the type of a value, whose present byte and word are b and word.
#[derive(Clone, Copy)]
pub enum TypeField {
    NoType,
    AnyType,
    PlainType,
    ValueType,
}

// The fields of a kind.
#[derive(Clone, Copy)]
pub struct Fields {
    pub ty: TypeField,
    pub a: Field,
    pub b: Field,
    pub c: Field,
}

pub fn code_of(r: Refusal) -> u8
    ensures { result ≡ code_of r }
{
    match r {
        Refusal::ProgramLength => 1,
        Refusal::CheckSum(_) => 2,
        Refusal::BlockNumber(_) => 3,
        Refusal::RecordFault(_) => 4,
        Refusal::ShapeFault(_) => 5,
        Refusal::ScopeFault(_) => 6,
        Refusal::TypeFault(_) => 7,
        Refusal::NotReady(_) => 8,
        Refusal::StateFault => 9,
        Refusal::RecordsLength => 10,
        Refusal::OutputLength => 11,
        Refusal::InputFault(_) => 12,
        Refusal::TimeBack(_) => 13,
        Refusal::OtherProgram => 15,
    }
}

pub fn place_of(r: Refusal) -> u32
    ensures { result ≡ place_of r }
{
    match r {
        Refusal::ProgramLength => 0,
        Refusal::CheckSum(at) => at,
        Refusal::BlockNumber(at) => at,
        Refusal::RecordFault(at) => at,
        Refusal::ShapeFault(at) => at,
        Refusal::ScopeFault(at) => at,
        Refusal::TypeFault(at) => at,
        Refusal::NotReady(at) => at,
        Refusal::StateFault => 0,
        Refusal::RecordsLength => 0,
        Refusal::OutputLength => 0,
        Refusal::InputFault(at) => at,
        Refusal::TimeBack(at) => at,
        Refusal::OtherProgram => 0,
    }
}
