// The evaluation of a signal with a second room: what each listed node gives is written down as it becomes known. It is the evaluation itself, and
// no second one: a let's definition is evaluated once, and below a leaf it is crate evaluate's.
#![tactic(auto)]

ghost use Rattle.std.specs.Prelude.{◌≡◌, ◌+◌, ◌*◌, ◌≤◌, ◌<◌, eqb, length, if◌then◌else◌};
ghost use Rattle.rules.specs.Values.{unpacked};
ghost use Rattle.rules.specs.Tree.{signal_at};
ghost use Rattle.rules.specs.Evaluate.{bind, eval_s};
ghost use Rattle.outcomes.specs.Outcome.{outcome_in, IsOutcome, IsValue};
ghost use Rattle.evaluate.specs.Ready.{ReadyS};
ghost use Rattle.recalled.specs.Recall.{fill_s};
ghost use Rattle.noted.specs.Noted.{Noted, Notes};
ghost use Rattle.watched.specs.Note.{put as put_in, keep as keep_in, parts_s, note_s};

use branches::has_branch;
use cells::{node_by, own_cell, put64};
use evaluate::{branch_in, evaluated};
use outcomes::{exactly, later, ruled, show};

// The value of an outcome in a place of the room, if the entry of that place names node i.
fn note_value(entry: u16, room: &mut [u8], at: usize, i: usize, outcome: u64)
    requires { IsOutcome outcome × (at + 8 ≤ length room.old) }
    ensures { room.new ≡ (if eqb i entry then put_in (outcome_in outcome) room.old at else room.old) }
{
    if usize::from(entry) != i {
        return;
    }
    let Some(shown) = show(outcome) else {
        return;
    };
    put64(room, at, shown.value);
}

// What node i gives, in the place of each entry that names it: the first entry's place is at.
fn keep(list: &&[u16], room: &mut [u8], at: usize, i: usize, outcome: u64)
    requires { IsOutcome outcome × (at + 8 * length list.now.now ≤ length room.old) }
    ensures { room.new ≡ keep_in list.now.now at i (outcome_in outcome) room.old }
{
    for (j, entry) in list.iter().enumerate() {
        note_value(*entry, room, at + 8 * j, i, outcome);
    }
}

// Signal i, and of its parts what listed nodes give (a let's definition is noted in memo, as by evaluate): a let's definition and body, the current part of a switch or a group, an until's signal.
#[cycle(inside_n_note_s_parts_n)]
fn parts_n(
    p: &&[u8],
    ix: &[u16; 10080],
    rec: &&[u8],
    st: &&[u8],
    env: &mut [u64; 1008],
    list: &&[u16],
    room: &mut [u8],
    at: usize,
    i: usize,
    memo: &mut [u64; 1008],
) -> u64
    requires { ReadyS p.now.now ix.now st.now.now env.old i × (at + 8 * length list.now.now ≤ length room.old) × Noted p.now.now memo.old }
    ensures { (outcome_in result ≡ eval_s rec.now.now st.now.now env.old (signal_at p.now.now i)) × IsOutcome result × (env.new ≡ env.old) × (room.new ≡ parts_s list.now.now at rec.now.now st.now.now env.old (signal_at p.now.now i) room.old) × Notes p.now.now memo.old memo.new (fill_s rec.now.now st.now.now env.old (signal_at p.now.now i)) }
{
    let n = node_by(*p, ix, i);
    let k = n.kind;
    match k {
        5 => {
            let d = note_s(p, ix, rec, st, env, list, room, at, n.a, memo);
            memo[i] = d;
            let Some(shown) = show(d) else {
                return 0;
            };
            let v = shown.value;
            later(
                shown.count,
                inside_n(p, ix, rec, st, env, list, room, at, i, v, n.b, memo),
            )
        }
        6 => {
            let m = own_cell(ix, *st, i);
            if m == 0 {
                return ruled(note_s(p, ix, rec, st, env, list, room, at, n.a, memo));
            }
            ruled(inside_n(
                p,
                ix,
                rec,
                st,
                env,
                list,
                room,
                at,
                i,
                exactly(m),
                n.c,
                memo,
            ))
        }
        7 => {
            let m = own_cell(ix, *st, i);
            if m == 0 {
                return ruled(note_s(p, ix, rec, st, env, list, room, at, n.a, memo));
            }
            let which = branch_in(m);
            if has_branch(*p, ix, n.b, which) {
                let branch = node_by(*p, ix, which);
                return ruled(inside_n(
                    p,
                    ix,
                    rec,
                    st,
                    env,
                    list,
                    room,
                    at,
                    which,
                    exactly(m),
                    branch.a,
                    memo,
                ));
            }
            0
        }
        8 => ruled(note_s(p, ix, rec, st, env, list, room, at, n.a, memo)),
        _ => evaluated(p, ix, rec, *st, env, i, memo),
    }
}

// Signal i, and what it and its parts give.
#[cycle(inside_n_note_s_parts_n)]
fn note_s(
    p: &&[u8],
    ix: &[u16; 10080],
    rec: &&[u8],
    st: &&[u8],
    env: &mut [u64; 1008],
    list: &&[u16],
    room: &mut [u8],
    at: usize,
    i: usize,
    memo: &mut [u64; 1008],
) -> u64
    requires { ReadyS p.now.now ix.now st.now.now env.old i × (at + 8 * length list.now.now ≤ length room.old) × Noted p.now.now memo.old }
    ensures { (outcome_in result ≡ eval_s rec.now.now st.now.now env.old (signal_at p.now.now i)) × IsOutcome result × (env.new ≡ env.old) × (room.new ≡ note_s list.now.now at rec.now.now st.now.now env.old (signal_at p.now.now i) room.old) × Notes p.now.now memo.old memo.new (fill_s rec.now.now st.now.now env.old (signal_at p.now.now i)) }
{
    let r = parts_n(p, ix, rec, st, env, list, room, at, i, memo);
    keep(list, room, at, i, r);
    r
}

// Signal k with the value v in slot i, which is then put back.
#[cycle(inside_n_note_s_parts_n)]
fn inside_n(
    p: &&[u8],
    ix: &[u16; 10080],
    rec: &&[u8],
    st: &&[u8],
    env: &mut [u64; 1008],
    list: &&[u16],
    room: &mut [u8],
    at: usize,
    i: usize,
    v: u64,
    k: usize,
    memo: &mut [u64; 1008],
) -> u64
    requires { ReadyS p.now.now ix.now st.now.now env.old k × (at + 8 * length list.now.now ≤ length room.old) × (i < 1008) × IsValue v × Noted p.now.now memo.old }
    ensures { (outcome_in result ≡ eval_s rec.now.now st.now.now (bind env.old i (unpacked v)) (signal_at p.now.now k)) × IsOutcome result × (env.new ≡ env.old) × (room.new ≡ note_s list.now.now at rec.now.now st.now.now (bind env.old i (unpacked v)) (signal_at p.now.now k) room.old) × Notes p.now.now memo.old memo.new (fill_s rec.now.now st.now.now (bind env.old i (unpacked v)) (signal_at p.now.now k)) }
{
    let outer = env[i];
    env[i] = v;
    let r = note_s(p, ix, rec, st, env, list, room, at, k, memo);
    env[i] = outer;
    r
}

// Signal i in a state that is lent as a slice: what a watched step calls.
pub fn noted(
    p: &&[u8],
    ix: &[u16; 10080],
    rec: &&[u8],
    st: &[u8],
    env: &mut [u64; 1008],
    list: &[u16],
    room: &mut [u8],
    at: usize,
    i: usize,
    memo: &mut [u64; 1008],
) -> u64
    requires { ReadyS p.now.now ix.now st.now env.old i × (at + 8 * length list.now ≤ length room.old) × Noted p.now.now memo.old }
    ensures { (outcome_in result ≡ eval_s rec.now.now st.now env.old (signal_at p.now.now i)) × IsOutcome result × (env.new ≡ env.old) × (room.new ≡ note_s list.now at rec.now.now st.now env.old (signal_at p.now.now i) room.old) × Notes p.now.now memo.old memo.new (fill_s rec.now.now st.now env.old (signal_at p.now.now i)) }
{
    note_s(p, ix, rec, &st, env, &list, room, at, i, memo)
}
