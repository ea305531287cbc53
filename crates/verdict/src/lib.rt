// The verdict on a program: codes 1-8, lowest code first, then smallest place.
#![tactic(auto)]

ghost use Rattle.std.specs.Prelude.{◌≡◌, Bool, false, ◌-◌, ◌<◌, Err};
ghost use Rattle.rules.specs.Layout.{nodes};
ghost use Rattle.rules.specs.Kinds.{is_signal};
ghost use Rattle.rules.specs.Format.{length_wrong};
ghost use Rattle.rules.specs.Shaped.{NodeOf};
ghost use Rattle.rules.specs.Accepted.{Formed};
ghost use Rattle.rules.specs.Calls.{program_verdict};
ghost use Rattle.cells.specs.Indexed.{ListedOnce};
ghost use Rattle.verdict.specs.Parts.{format_verdict, tree_verdict, shape_verdict, judged};

use format::{count_nodes, first_number, first_record, first_sum, length_wrong};
use ready::ready_fault;
use rules::Refusal;
use scope::scope_fault;
use shape::first_shape;
use typing::type_root;

// What is known of a program that has no fault: the number of its nodes and its root's type.
#[derive(Clone, Copy)]
pub struct Judged {
    pub count: usize,
    pub ty: u8,
}

// Codes 2-4.
fn format_verdict(p: &[u8]) -> Result<(), Refusal>
    requires { length_wrong p.now ≡ false }
    ensures { result ≡ format_verdict p.now }
{
    if let Some(j) = first_sum(p) {
        return Err(Refusal::CheckSum(j));
    }
    if let Some(j) = first_number(p) {
        return Err(Refusal::BlockNumber(j));
    }
    if let Some(r) = first_record(p) {
        return Err(Refusal::RecordFault(r));
    }
    Ok(())
}

// Codes 6-8, of a program whose shape is right.
fn judge_tree(p: &[u8], count: usize) -> Result<Judged, Refusal>
    requires { (count ≡ nodes p.now) × (0 < count) × NodeOf is_signal p.now (count - 1) × ListedOnce p.now }
    ensures { result ≡ judged p.now (tree_verdict p.now) }
{
    if let Some(n) = scope_fault(p, count) {
        return Err(Refusal::ScopeFault(n));
    }
    let root = type_root(p, count);
    if let Some(n) = root.place {
        return Err(Refusal::TypeFault(n));
    }
    if let Some(n) = ready_fault(p, count) {
        return Err(Refusal::NotReady(n));
    }
    Ok(Judged { count, ty: root.ty })
}

// Codes 5-8, of a program whose blocks and records are right.
fn judge_shape(p: &[u8]) -> Result<Judged, Refusal>
    requires { Formed p.now }
    ensures { result ≡ judged p.now (shape_verdict p.now) }
{
    let count = count_nodes(p);
    if let Some(n) = first_shape(p, count) {
        return Err(Refusal::ShapeFault(n));
    }
    judge_tree(p, count)
}

// Codes 1-8, or the number of nodes and the root's type of a program that has no fault.
pub fn judge(p: &[u8]) -> Result<Judged, Refusal>
    ensures { result ≡ judged p.now (program_verdict p.now) }
{
    if length_wrong(p) {
        return Err(Refusal::ProgramLength);
    }
    format_verdict(p)?;
    judge_shape(p)
}
