// A fault told where a test finds something wrong.
#![tactic(auto)]

ghost use Rattle.std.specs.Prelude.{◌≡◌};
ghost use Rattle.rules.specs.Calls.{refuse_if};

use rules::Refusal;

// A fault, if something is wrong.
pub fn refuse_if(wrong: bool, reason: Refusal) -> Result<(), Refusal>
    ensures { result ≡ refuse_if wrong reason }
{
    if wrong { Err(reason) } else { Ok(()) }
}
