// Evaluation of expressions and of signals, with the values of variables in lent slots, set and put back. An outcome is one number.
// The outcome of each let's definition is noted in the slot of the let's number: the update that follows takes it from there.
#![tactic(auto)]

ghost use Rattle.std.specs.Prelude.{◌≡◌, ◌≤◌, ◌<◌};
ghost use Rattle.rules.specs.Bytes.{Bytes};
ghost use Rattle.rules.specs.Layout.{kind_at};
ghost use Rattle.rules.specs.Values.{unpacked, middle_in};
ghost use Rattle.rules.specs.Tree.{expr_at, signal_at};
ghost use Rattle.rules.specs.Work.{rule};
ghost use Rattle.rules.specs.Evaluate.{bind, eval_e, eval_s};
ghost use Rattle.outcomes.specs.Outcome.{outcome_in, IsOutcome, IsValue};
ghost use Rattle.recalled.specs.Recall.{fill_s};
ghost use Rattle.noted.specs.Noted.{Noted, Notes};
ghost use Rattle.evaluate.specs.Ready.{ReadyE, ReadyO, ReadyS};

use branches::has_branch;
use cells::{kind_by, node_by, own_cell, value_by};
use inputs::{channel_value, time_in};
use outcomes::{
    apart, chosen, exactly, fixed, given, held, later, lifted, negated, on_bools, on_ints, ruled,
    show, variable,
};
use rules::{INT, Value};

// Expression i, a variable or a constant.
fn simple(p: &&[u8], ix: &[u16; 10080], env: &[u64; 1008], i: usize) -> u64
    requires { ReadyE p.now.now ix.now env.now i × (kind_at p.now.now i ≤ 17) }
    ensures { (outcome_in result ≡ eval_e env.now (expr_at p.now.now i)) × IsOutcome result }
{
    let n = node_by(*p, ix, i);
    if n.kind == 16 {
        return variable(env, n.a);
    }
    fixed(value_by(*p, ix, i))
}

// (What is lent stands as parameters of their own. In a struct by reference a rule of the table wide took 1.23 times the optimised interpreter's, or 1.27
// with all that is lent; so it takes 0.97, and 1.0 is the bar.)

// Expression i as an operand: a variable or a constant is read at once, without a call.
#[cycle(eval_e_inside_e_operand)]
fn operand(p: &&[u8], ix: &[u16; 10080], env: &mut [u64; 1008], i: usize) -> u64
    requires { ReadyE p.now.now ix.now env.old i }
    ensures { (outcome_in result ≡ eval_e env.old (expr_at p.now.now i)) × IsOutcome result × (env.new ≡ env.old) }
{
    if 17 < kind_by(*p, ix, i) {
        return eval_e(p, ix, env, i);
    }
    simple(p, ix, env, i)
}

// Expression i. If and take evaluate one arm only. (Operations on ints come first, by tests that cost less than the table of a match.)
#[cycle(eval_e_inside_e_operand)]
fn eval_e(p: &&[u8], ix: &[u16; 10080], env: &mut [u64; 1008], i: usize) -> u64
    requires { ReadyE p.now.now ix.now env.old i }
    ensures { (outcome_in result ≡ eval_e env.old (expr_at p.now.now i)) × IsOutcome result × (env.new ≡ env.old) }
{
    let n = node_by(*p, ix, i);
    let k = n.kind;
    if k <= 23 {
        if k <= 17 {
            return simple(p, ix, env, i);
        }
        let x = operand(p, ix, env, n.a);
        let y = operand(p, ix, env, n.b);
        return on_ints(k, x, y);
    }
    match k {
        24 => negated(operand(p, ix, env, n.a)),
        27 => {
            let test = operand(p, ix, env, n.a);
            let Some(arm) = chosen(test, n.b, n.c) else {
                return 0;
            };
            later(arm.count, operand(p, ix, env, arm.at))
        }
        28 => lifted(operand(p, ix, env, n.a)),
        29 => {
            let maybe = operand(p, ix, env, n.a);
            let Some(parts) = apart(maybe) else {
                return 0;
            };
            let Some(v) = parts.event else {
                return later(parts.count, eval_e(p, ix, env, n.b));
            };
            later(parts.count, inside_e(p, ix, env, i, v, n.c))
        }
        _ => {
            let x = operand(p, ix, env, n.a);
            let y = operand(p, ix, env, n.b);
            on_bools(k, x, y)
        }
    }
}

// Expression k with the value v in slot i, which is then put back.
#[cycle(eval_e_inside_e_operand)]
fn inside_e(p: &&[u8], ix: &[u16; 10080], env: &mut [u64; 1008], i: usize, v: u64, k: usize) -> u64
    requires { ReadyE p.now.now ix.now env.old k × (i < 1008) × IsValue v }
    ensures { (outcome_in result ≡ eval_e (bind env.old i (unpacked v)) (expr_at p.now.now k)) × IsOutcome result × (env.new ≡ env.old) }
{
    let old = env[i];
    env[i] = v;
    let r = eval_e(p, ix, env, k);
    env[i] = old;
    r
}

// The branch's node number in a group's cell.
pub fn branch_in(m: u64) -> usize
    ensures { result ≡ middle_in m }
{
    (m / 65536 % 65536) as usize
}

// Signal i, an input, time, ext or delay: no signal below it is evaluated, and nothing is noted.
fn at_once(
    p: &&[u8],
    ix: &[u16; 10080],
    rec: &&[u8],
    st: &&[u8],
    env: &mut [u64; 1008],
    i: usize,
) -> u64
    requires { ReadyS p.now.now ix.now st.now.now env.old i × (kind_at p.now.now i ≤ 4) }
    ensures { (outcome_in result ≡ eval_s rec.now.now st.now.now env.old (signal_at p.now.now i)) × IsOutcome result × (env.new ≡ env.old) }
{
    let n = node_by(*p, ix, i);
    let k = n.kind;
    match k {
        1 => given(channel_value(*rec, n.a)),
        3 => ruled(operand(p, ix, env, n.a)),
        4 => held(own_cell(ix, *st, i)),
        _ => given(Value::Plain(INT, time_in(*rec))),
    }
}

// Signal i. Switch and let continue evaluate the current part; a group's branch is known by its number in the cell.
#[cycle(eval_s_inside_s_part_through)]
fn eval_s(
    p: &&[u8],
    ix: &[u16; 10080],
    rec: &&[u8],
    st: &&[u8],
    env: &mut [u64; 1008],
    i: usize,
    memo: &mut [u64; 1008],
) -> u64
    requires { ReadyS p.now.now ix.now st.now.now env.old i × Noted p.now.now memo.old }
    ensures { (outcome_in result ≡ eval_s rec.now.now st.now.now env.old (signal_at p.now.now i)) × IsOutcome result × (env.new ≡ env.old) × Notes p.now.now memo.old memo.new (fill_s rec.now.now st.now.now env.old (signal_at p.now.now i)) }
{
    let n = node_by(*p, ix, i);
    let k = n.kind;
    if k <= 4 {
        return at_once(p, ix, rec, st, env, i);
    }
    match k {
        5 => {
            let d = part(p, ix, rec, st, env, n.a, memo);
            memo[i] = d;
            let Some(shown) = show(d) else {
                return 0;
            };
            let v = shown.value;
            later(shown.count, inside_s(p, ix, rec, st, env, i, v, n.b, memo))
        }
        6 => {
            let m = own_cell(ix, *st, i);
            if m == 0 {
                return ruled(eval_s(p, ix, rec, st, env, n.a, memo));
            }
            ruled(inside_s(p, ix, rec, st, env, i, exactly(m), n.c, memo))
        }
        7 => {
            let m = own_cell(ix, *st, i);
            if m == 0 {
                return ruled(eval_s(p, ix, rec, st, env, n.a, memo));
            }
            let which = branch_in(m);
            if has_branch(*p, ix, n.b, which) {
                let branch = node_by(*p, ix, which);
                return ruled(inside_s(p, ix, rec, st, env, which, exactly(m), branch.a, memo));
            }
            0
        }
        _ => through(p, ix, rec, st, env, n.a, memo),
    }
}

// Signal i, a definition or what a variable is bound in: an ext is evaluated without a call.
#[cycle(eval_s_inside_s_part_through)]
fn part(
    p: &&[u8],
    ix: &[u16; 10080],
    rec: &&[u8],
    st: &&[u8],
    env: &mut [u64; 1008],
    i: usize,
    memo: &mut [u64; 1008],
) -> u64
    requires { ReadyS p.now.now ix.now st.now.now env.old i × Noted p.now.now memo.old }
    ensures { (outcome_in result ≡ eval_s rec.now.now st.now.now env.old (signal_at p.now.now i)) × IsOutcome result × (env.new ≡ env.old) × Notes p.now.now memo.old memo.new (fill_s rec.now.now st.now.now env.old (signal_at p.now.now i)) }
{
    let n = node_by(*p, ix, i);
    if n.kind == 3 {
        return ruled(operand(p, ix, env, n.a));
    }
    eval_s(p, ix, rec, st, env, i, memo)
}

// Signal i of an until, by the until's rule: a delay is read at once, without a call.
#[cycle(eval_s_inside_s_part_through)]
fn through(
    p: &&[u8],
    ix: &[u16; 10080],
    rec: &&[u8],
    st: &&[u8],
    env: &mut [u64; 1008],
    i: usize,
    memo: &mut [u64; 1008],
) -> u64
    requires { ReadyS p.now.now ix.now st.now.now env.old i × Noted p.now.now memo.old }
    ensures { (outcome_in result ≡ rule (eval_s rec.now.now st.now.now env.old (signal_at p.now.now i))) × IsOutcome result × (env.new ≡ env.old) × Notes p.now.now memo.old memo.new (fill_s rec.now.now st.now.now env.old (signal_at p.now.now i)) }
{
    if kind_by(*p, ix, i) == 4 {
        return ruled(held(own_cell(ix, *st, i)));
    }
    let r = eval_s(p, ix, rec, st, env, i, memo);
    ruled(r)
}

// Signal k with the value v in slot i, which is then put back.
#[cycle(eval_s_inside_s_part_through)]
fn inside_s(
    p: &&[u8],
    ix: &[u16; 10080],
    rec: &&[u8],
    st: &&[u8],
    env: &mut [u64; 1008],
    i: usize,
    v: u64,
    k: usize,
    memo: &mut [u64; 1008],
) -> u64
    requires { ReadyS p.now.now ix.now st.now.now env.old k × (i < 1008) × IsValue v × Noted p.now.now memo.old }
    ensures { (outcome_in result ≡ eval_s rec.now.now st.now.now (bind env.old i (unpacked v)) (signal_at p.now.now k)) × IsOutcome result × (env.new ≡ env.old) × Notes p.now.now memo.old memo.new (fill_s rec.now.now st.now.now (bind env.old i (unpacked v)) (signal_at p.now.now k)) }
{
    let outer = env[i];
    env[i] = v;
    let r = part(p, ix, rec, st, env, k, memo);
    env[i] = outer;
    r
}

// Signal i, an input, time or ext: it reads no cell, and nothing is noted.
pub fn outright(p: &&[u8], ix: &[u16; 10080], rec: &&[u8], env: &mut [u64; 1008], i: usize) -> u64
    requires { ReadyO p.now.now ix.now env.old i }
    ensures { ((st : Bytes) → outcome_in result ≡ eval_s rec.now.now st env.old (signal_at p.now.now i)) × IsOutcome result × (env.new ≡ env.old) }
{
    let n = node_by(*p, ix, i);
    let k = n.kind;
    match k {
        1 => given(channel_value(*rec, n.a)),
        3 => ruled(operand(p, ix, env, n.a)),
        _ => given(Value::Plain(INT, time_in(*rec))),
    }
}

// Signal i in a state that is lent as a slice: what a step and an update call.
pub fn evaluated(
    p: &&[u8],
    ix: &[u16; 10080],
    rec: &&[u8],
    st: &[u8],
    env: &mut [u64; 1008],
    i: usize,
    memo: &mut [u64; 1008],
) -> u64
    requires { ReadyS p.now.now ix.now st.now env.old i × Noted p.now.now memo.old }
    ensures { (outcome_in result ≡ eval_s rec.now.now st.now env.old (signal_at p.now.now i)) × IsOutcome result × (env.new ≡ env.old) × Notes p.now.now memo.old memo.new (fill_s rec.now.now st.now env.old (signal_at p.now.now i)) }
{
    eval_s(p, ix, rec, &st, env, i, memo)
}
