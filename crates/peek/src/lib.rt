// The steps of a watched run: the plain run's, but that the root is evaluated with a second room, in which the values of listed nodes are noted.
#![tactic(auto)]

ghost use Rattle.std.specs.Prelude.{◌≡◌, ◌+◌, ◌*◌, ◌≤◌, ◌<◌, ◌/◌, length};
ghost use Rattle.rules.specs.Bytes.{write_at};
ghost use Rattle.rules.specs.Layout.{input_length, most_nodes};
ghost use Rattle.rules.specs.Tree.{root};
ghost use Rattle.rules.specs.Evaluate.{unbound, eval_s};
ghost use Rattle.rules.specs.Calls.{no_step, run_from};
ghost use Rattle.watched.specs.Watch.{shown as shown_in, shown_from};
ghost use Rattle.steps.specs.Going.{Going, Held, Told, Displayed, Taken, Leaves};
ghost use Rattle.noted.specs.Noted.{Noted};

use cells::put;
use notes::noted;
use record::{first_wrapped, record_verdict};
use rules::{NO_STEP, Ran, Stopped, Tally};
use steps::{advance, display};

// The output of a step and its row of the second room: the row is cleared, and the root evaluated with what listed nodes give noted in it.
fn show_listed(
    p: &[u8],
    index: &[u16; 10080],
    rec: &[u8],
    st: &[u8],
    env: &mut [u64; 1008],
    list: &[u16],
    out: &mut [u8],
    at: usize,
    room: &mut [u8],
    row: usize,
    count: usize,
    memo: &mut [u64; 1008],
) -> Tally
    requires { Held p.now index.now (length st.now) env.old count × (at + 8 ≤ length out.old) × (row + 8 * length list.now ≤ length room.old) × Noted p.now memo.old }
    ensures { Displayed (eval_s rec.now st.now (unbound most_nodes) (root p.now)) out.old out.new at result × (env.new ≡ env.old) × (room.new ≡ write_at room.old row (shown_in p.now rec.now st.now list.now)) × Told p.now rec.now st.now memo.new }
{
    put(room, row, 0, 8 * list.len());
    let outcome = noted(&p, index, &rec, st, env, list, room, row, count - 1, memo);
    display(outcome, out, at)
}

// A watched step. The answer is what both phases counted.
fn watch_step(
    p: &[u8],
    index: &[u16; 10080],
    rec: &[u8],
    st: &mut [u8],
    env: &mut [u64; 1008],
    list: &[u16],
    out: &mut [u8],
    at: usize,
    room: &mut [u8],
    row: usize,
    count: usize,
    memo: &mut [u64; 1008],
) -> Tally
    requires { Going p.now index.now st.old env.old count × (input_length ≤ length rec.now) × (at + 8 ≤ length out.old) × (row + 8 * length list.now ≤ length room.old) × Noted p.now memo.old }
    ensures { Taken p.now rec.now st.old st.new out.old out.new at result × (env.new ≡ env.old) × (room.new ≡ write_at room.old row (shown_in p.now rec.now st.old list.now)) × Noted p.now memo.new }
{
    let seen = show_listed(
        p, index, rec, st, env, list, out, at, room, row, count, memo,
    );
    let moved = advance(p, index, rec, st, env, count, memo);
    Tally {
        work: seen.work + moved.work,
        wrapped: seen.wrapped | moved.wrapped,
    }
}

// The records of a watched run, one after the other, until one is refused: answer, state and output are the plain run's, and of the second room
// the rows of the finished steps are written. The slots of definitions' outcomes are made once for the run.
pub fn watch_records(
    p: &[u8],
    index: &[u16; 10080],
    recs: &[u8],
    st: &mut [u8],
    env: &mut [u64; 1008],
    list: &[u16],
    out: &mut [u8],
    room: &mut [u8],
    count: usize,
) -> Result<Ran, Stopped>
    requires { Going p.now index.now st.old env.old count × (length recs.now ≤ 163840) × (length out.old ≡ 8 * (length recs.now / input_length)) × (length list.now ≤ 8) × (length room.old ≡ 8 * length list.now * (length recs.now / input_length)) }
    ensures { Leaves (run_from p.now recs.now (length recs.now / input_length) 0 0 no_step st.old out.old) result st.new out.new × (room.new ≡ shown_from p.now recs.now list.now (length recs.now / input_length) 0 st.old room.old) }
{
    let mut memo: [u64; 1008] = [0; 1008];
    let left = recs.len() / 40;
    let width = 8 * list.len();
    let mut work: u32 = 0;
    let mut mark: u32 = NO_STEP;
    for done in 0..left {
        let from = 40 * done;
        let to = from + 40;
        let rec = &recs[from..to];
        let found = record_verdict(st, rec, done as u32);
        if let Err(r) = found {
            return Err(Stopped {
                why: r,
                work,
                wrapped: mark,
            });
        }
        let spent = watch_step(
            p,
            index,
            rec,
            st,
            env,
            list,
            out,
            8 * done,
            room,
            width * done,
            count,
            &mut memo,
        );
        work += spent.work as u32;
        mark = first_wrapped(mark, done as u32, spent);
    }
    Ok(Ran {
        steps: left as u32,
        work,
        wrapped: mark,
    })
}
