// One step of an accepted program in a well-formed state, and a run of steps.
#![tactic(auto)]

ghost use Rattle.std.specs.Prelude.{◌≡◌, ◌+◌, ◌*◌, ◌≤◌, ◌<◌, ◌/◌, length};
ghost use Rattle.rules.specs.Layout.{input_length, most_nodes};
ghost use Rattle.rules.specs.Tree.{root};
ghost use Rattle.rules.specs.Evaluate.{unbound, eval_s};
ghost use Rattle.rules.specs.Calls.{no_step, run_from};
ghost use Rattle.steps.specs.Going.{Going, Held, Told, Displayed, Advanced, Taken, Leaves, most_work};
ghost use Rattle.noted.specs.Noted.{Noted};
ghost use Rattle.outcomes.specs.Combine.{work_of};
ghost use Rattle.outcomes.specs.Outcome.{outcome_in, IsOutcome};
ghost use Rattle.promises.specs.Run.{work_in};

use cells::{put64, set_time};
use evaluate::evaluated;
use moves::settled;
use record::{first_wrapped, record_verdict, time_of};
use rules::{NO_STEP, Ran, Stopped, Tally};
use update::update_s;

// The value of an outcome, at a place of the output room. The answer is what was counted.
pub fn display(outcome: u64, out: &mut [u8], at: usize) -> Tally
    requires { IsOutcome outcome × (work_of (outcome_in outcome) ≤ most_work) × (at + 8 ≤ length out.old) }
    ensures { Displayed (outcome_in outcome) out.old out.new at result }
{
    let Some(shown) = outcomes::show(outcome) else {
        return Tally {
            work: 0,
            wrapped: false,
        };
    };
    put64(out, at, shown.value);
    shown.count
}

// The output of a step: the root is evaluated, and its value goes to the output room. The answer is what was counted.
fn show(
    p: &[u8],
    index: &[u16; 10080],
    rec: &[u8],
    st: &[u8],
    env: &mut [u64; 1008],
    out: &mut [u8],
    at: usize,
    count: usize,
    memo: &mut [u64; 1008],
) -> Tally
    requires { Held p.now index.now (length st.now) env.old count × (at + 8 ≤ length out.old) × Noted p.now memo.old }
    ensures { Displayed (eval_s rec.now st.now (unbound most_nodes) (root p.now)) out.old out.new at result × (env.new ≡ env.old) × Told p.now rec.now st.now memo.new }
{
    let outcome = evaluated(&p, index, &rec, st, env, count - 1, memo);
    display(outcome, out, at)
}

// The state after a step: the root is updated, and the time becomes the record's. The answer is what was counted. (No accepted program halts in a
// well-formed state, nor jumps out of its root: that arm is never taken.)
pub fn advance(
    p: &[u8],
    index: &[u16; 10080],
    rec: &[u8],
    st: &mut [u8],
    env: &mut [u64; 1008],
    count: usize,
    memo: &mut [u64; 1008],
) -> Tally
    requires { Going p.now index.now st.old env.old count × (input_length ≤ length rec.now) × Told p.now rec.now st.old memo.old }
    ensures { Advanced p.now rec.now st.old st.new result × Held p.now index.now (length st.new) env.new count × Noted p.now memo.new }
{
    let moved = update_s(&p, index, &rec, st, env, count - 1, memo);
    let Some(w) = settled(moved) else {
        return Tally {
            work: 0,
            wrapped: false,
        };
    };
    set_time(st, time_of(rec));
    w
}

// A step: its value is that of the state before the update. The answer is what both phases counted.
fn make_step(
    p: &[u8],
    index: &[u16; 10080],
    rec: &[u8],
    st: &mut [u8],
    env: &mut [u64; 1008],
    out: &mut [u8],
    at: usize,
    count: usize,
    memo: &mut [u64; 1008],
) -> Tally
    requires { Going p.now index.now st.old env.old count × (input_length ≤ length rec.now) × (at + 8 ≤ length out.old) × Noted p.now memo.old }
    ensures { Taken p.now rec.now st.old st.new out.old out.new at result × (env.new ≡ env.old) × Noted p.now memo.new }
{
    let seen = show(p, index, rec, st, env, out, at, count, memo);
    let moved = advance(p, index, rec, st, env, count, memo);
    Tally {
        work: seen.work + moved.work,
        wrapped: seen.wrapped | moved.wrapped,
    }
}

// The records of a run, one after the other, until one is refused. More records may follow in another run, with the same slots of definitions' outcomes. (No step works more than 1,008
// times 1,009, so that the work of 4,096 is below 2 to the 32nd.)
pub fn run_records(
    p: &[u8],
    index: &[u16; 10080],
    recs: &[u8],
    st: &mut [u8],
    env: &mut [u64; 1008],
    out: &mut [u8],
    count: usize,
    memo: &mut [u64; 1008],
) -> Result<Ran, Stopped>
    requires { Going p.now index.now st.old env.old count × (length recs.now ≤ 163840) × (length out.old ≡ 8 * (length recs.now / input_length)) × Noted p.now memo.old }
    ensures { Leaves (run_from p.now recs.now (length recs.now / input_length) 0 0 no_step st.old out.old) result st.new out.new × Going p.now index.now st.new env.new count × (work_in result ≤ most_work * (length recs.now / input_length)) × Noted p.now memo.new }
{
    let left = recs.len() / 40;
    let mut work: u32 = 0;
    let mut mark: u32 = NO_STEP;
    for done in 0..left {
        let from = 40 * done;
        let to = from + 40;
        let rec = &recs[from..to];
        let found = record_verdict(st, rec, done as u32);
        if let Err(r) = found {
            return Err(Stopped {
                why: r,
                work,
                wrapped: mark,
            });
        }
        let spent = make_step(p, index, rec, st, env, out, 8 * done, count, memo);
        work += spent.work as u32;
        mark = first_wrapped(mark, done as u32, spent);
    }
    Ok(Ran {
        steps: left as u32,
        work,
        wrapped: mark,
    })
}
