// The kinds: which are signals and expressions, what a field asks of the number in it, and the paper's table as one decision over the kind.
#![tactic(auto)]

ghost use Rattle.std.specs.Prelude.{◌≡◌, Bool, ◌+◌, ◌*◌, ◌≤◌, ◌<◌};
ghost use Rattle.rules.specs.Bytes.{◌and◌, ◌or◌};
ghost use Rattle.rules.specs.Kinds.{is_expression, is_signal, row};
ghost use Rattle.rules.specs.Shape.{is_child, may_be, may_stop};
ghost use Rattle.kinds.specs.Rows.{child_number, type_number, width, named_bits, row_number, row_of, named_in, type_numbered, type_field_in, child_numbered, a_in, b_in, c_in};

use rules::Field::{
    Binder, Channel, Expression, FirstBranch, FirstCase, NextBranch, NextCase, PresentByte, Signal,
    Target, Unused,
};
use rules::TypeField::{AnyType, NoType, PlainType, ValueType};
use rules::{Field, Fields, TypeField};

// Both of two tests. (Crates above call this and the next; their proofs name the contracts.)
pub fn both(x: bool, y: bool) -> bool
    ensures { result ≡ (x and y) }
{
    x & y
}

// Either of two tests.
pub fn either(x: bool, y: bool) -> bool
    ensures { result ≡ (x or y) }
{
    x | y
}

// Kinds 1-8 are signals.
pub fn is_signal(k: u8) -> bool
    ensures { result ≡ is_signal k }
{
    matches!(k, 1..=8)
}

// Kinds 16-29 are expressions.
pub fn is_expression(k: u8) -> bool
    ensures { result ≡ is_expression k }
{
    matches!(k, 16..=29)
}

// Which fields name a child. Variable binders and case targets do not.
#[tactic(auto, unfolding(rules::specs::Shape::is_child))]
pub fn is_child(f: Field) -> bool
    ensures { result ≡ is_child f }
{
    matches!(
        f,
        Signal | Expression | FirstBranch | NextBranch | FirstCase | NextCase
    )
}

// The kinds that a field's child may have.
#[tactic(auto, unfolding(rules::specs::Shape::may_be, rules::specs::Kinds::is_branch, rules::specs::Kinds::is_case))]
pub fn may_be(f: Field, k: u8) -> bool
    ensures { result ≡ may_be f k }
{
    match f {
        Signal => is_signal(k),
        Expression => is_expression(k),
        FirstBranch | NextBranch => k == 9,
        FirstCase | NextCase => k == 10,
        Unused | Channel | PresentByte | Binder | Target => true,
    }
}

// The fields in which 65535 may stand for no next.
#[tactic(auto, unfolding(rules::specs::Shape::may_stop))]
pub fn may_stop(f: Field) -> bool
    ensures { result ≡ may_stop f }
{
    matches!(f, NextBranch | NextCase)
}

// The number of what the type is.
#[tactic(auto, unfolding(crate::specs::Rows::type_number))]
const fn type_number(t: TypeField) -> u32
    ensures { (result ≡ type_number t) × (result < 8) }
{
    match t {
        NoType => 1,
        AnyType => 2,
        PlainType => 3,
        ValueType => 4,
    }
}

// The number of a field that names a child; 0 where it names none.
#[tactic(auto, unfolding(crate::specs::Rows::child_number))]
const fn child_number(f: Field) -> u32
    ensures { (result ≡ child_number f) × (result < 8) }
{
    match f {
        Signal => 1,
        Expression => 2,
        FirstBranch => 3,
        NextBranch => 4,
        FirstCase => 5,
        NextCase => 6,
        Unused | Channel | PresentByte | Binder | Target => 0,
    }
}

// How many bits a field may have.
#[tactic(auto, unfolding(crate::specs::Rows::width))]
const fn width(f: Field) -> u32
    ensures { (result ≡ width f) × (result < 64) }
{
    match f {
        Unused => 0,
        Channel => 3,
        _ => 16,
    }
}

// How many of the 48 bits of a, b and c are named: none, a channel's, one field's, two's or all.
#[tactic(auto, unfolding(crate::specs::Rows::named_bits))]
const fn named_bits(f: Fields) -> u32
    ensures { (result ≡ named_bits f) × (result < 64) }
{
    if width(f.c) != 0 {
        48
    } else if width(f.b) != 0 {
        32
    } else {
        width(f.a)
    }
}

// The fields of a kind as one number: how many bits are named, what the type is, and the children in a, b and c.
const fn row_number(f: Fields) -> u32
    ensures { result ≡ row_number f }
{
    named_bits(f)
        + 64 * type_number(f.ty)
        + 512 * child_number(f.a)
        + 4096 * child_number(f.b)
        + 32768 * child_number(f.c)
}

// A row of the table.
const fn row(ty: TypeField, a: Field, b: Field, c: Field) -> u32
    ensures { result ≡ row_number (row ty a b c) }
{
    row_number(Fields { ty, a, b, c })
}

// The paper's table: one decision over the kind number. Of the signals, 1-8, time has no row of its own, and of the expressions, 16-29, the
// operations on two; a number that is no kind has the row 0.
pub fn row_of(k: u8) -> u32
    ensures { result ≡ row_of k }
{
    match k {
        1 => row(NoType, Channel, Unused, Unused),
        3 => row(NoType, Expression, Unused, Unused),
        4 => row(ValueType, Signal, PresentByte, Unused),
        5 => row(AnyType, Signal, Signal, Unused),
        6 => row(PlainType, Signal, Signal, Signal),
        7 => row(NoType, Signal, FirstBranch, Unused),
        8 => row(NoType, Signal, FirstCase, Unused),
        9 => row(PlainType, Signal, NextBranch, Unused),
        10 => row(NoType, Signal, NextCase, Target),
        16 => row(NoType, Binder, Unused, Unused),
        17 => row(ValueType, Unused, PresentByte, Unused),
        24 => row(NoType, Expression, Unused, Unused),
        27 => row(NoType, Expression, Expression, Expression),
        28 => row(NoType, Expression, Unused, Unused),
        29 => row(PlainType, Expression, Expression, Expression),
        1..=8 => row(NoType, Unused, Unused, Unused),
        16..=29 => row(NoType, Expression, Expression, Unused),
        _ => 0,
    }
}

// The bits that a row names.
pub fn named_in(row: u32) -> u32
    ensures { (result ≡ named_in row) × (result < 64) }
{
    row % 64
}

// What the type is in a row.
pub fn type_field_in(row: u32) -> TypeField
    ensures { result ≡ type_field_in row }
{
    let d = row / 64 % 8;
    match d {
        1 => NoType,
        2 => AnyType,
        3 => PlainType,
        _ => ValueType,
    }
}

// The child of a number. (The contract of row_of says a row as one number, so that its parts are read as numbers.)
fn child_numbered(d: u32) -> Field
    ensures { result ≡ child_numbered d }
{
    match d {
        1 => Signal,
        2 => Expression,
        3 => FirstBranch,
        4 => NextBranch,
        5 => FirstCase,
        6 => NextCase,
        _ => Unused,
    }
}

// The children in a row.
pub fn a_in(row: u32) -> Field
    ensures { result ≡ a_in row }
{
    child_numbered(row / 512 % 8)
}

pub fn b_in(row: u32) -> Field
    ensures { result ≡ b_in row }
{
    child_numbered(row / 4096 % 8)
}

pub fn c_in(row: u32) -> Field
    ensures { result ≡ c_in row }
{
    child_numbered(row / 32768 % 8)
}
