// Update: a signal goes one step on, in place on the lent state. The values of variables stand in lent slots, set and put back; the outcomes of
// definitions in others, noted by the evaluation that comes before each update.
#![tactic(auto)]

ghost use Rattle.std.specs.Prelude.{◌≡◌, ◌<◌, length};
ghost use Rattle.rules.specs.Bytes.{Bytes};
ghost use Rattle.rules.specs.Values.{unpacked};
ghost use Rattle.rules.specs.Kinds.{is_signal};
ghost use Rattle.rules.specs.Shaped.{NodeOf};
ghost use Rattle.rules.specs.Layout.{a_at, b_at, cells_before, most_nodes};
ghost use Rattle.rules.specs.Tree.{signal_at, branches_at, cases_at};
ghost use Rattle.rules.specs.Work.{moved, stays, ruleᵘ};
ghost use Rattle.rules.specs.Evaluate.{bind, eval_s};
ghost use Rattle.outcomes.specs.Outcome.{outcome_in, IsOutcome, IsValue};
ghost use Rattle.current.specs.Current.{leaves};
ghost use Rattle.recalled.specs.Recall.{fill_s, on_outcome, recall_s};
ghost use Rattle.noted.specs.Noted.{memory_in, Noted, Notes};
ghost use Rattle.evaluate.specs.Ready.{ReadyS};
ghost use Rattle.moves.specs.Outcomes.{count_in, moved_in, left_in, walked, walked_on, next_cases};
ghost use Rattle.moves.specs.Parts.{in_switch};
ghost use Rattle.update.specs.Passes.{Fits, seen_of, seen_in, quietly, quiet_work, passed_from, looked_work, looked_event, Counts, Known};
ghost use Rattle.moves.specs.Lent.{Ready, ReadyAs, Placed, ReadyC, CaseAs};

use branches::has_branch;
use cells::{kind_by, node_by, own_cell};
use evaluate::{branch_in, evaluated, outright};
use leaving::{enters, switches};
use moves::{
    after, caught, hold, jump, later, ruled, settled, stay, stayed, target_in, together, value_in,
};
use outcomes::{apart, exactly, show};
use rules::{Node, Tally};
use table::LAST;

// The outcome of group i, by one rule, from that of its part: a jump to one of its branches is caught, another goes on up.
fn catches(
    p: &&[u8],
    index: &[u16; 10080],
    st: &mut [u8],
    i: usize,
    n: Node,
    part: usize,
    r: u64,
) -> u64
    requires { Placed 7 p.now.now index.now (length st.old) i n × NodeOf is_signal p.now.now part × (count_in r < 524287) }
    ensures { moved (moved_in result) st.new ≡ ruleᵘ (leaves (cells_before p.now.now i) (signal_at p.now.now part) (branches_at p.now.now (b_at p.now.now i)) (moved (moved_in r) st.old)) }
{
    if r < 1048576 {
        return ruled(r);
    }
    let which = target_in(r);
    if has_branch(*p, index, n.b, which) {
        enters(p, index, st, i, n, part, which, value_in(r));
        return caught(r);
    }
    ruled(r)
}

// How far a loop brings a walk: the case where it stands, what the events before counted, and how many they are.
#[derive(Clone, Copy)]
pub struct Passed {
    pub at: usize,
    pub seen: u64,
    pub kept: u64,
}

// A case that was looked at: a quiet one, with what its event counted, or one that is not, with the event's outcome, if it was evaluated.
#[derive(Clone, Copy)]
pub enum Looked {
    Quiet(u64),
    Stands(Option<u64>),
}

// Where a loop has brought a walk, and the outcome of the event of the case where it stands, if it was evaluated.
#[derive(Clone, Copy)]
pub struct Reached {
    pub passed: Passed,
    pub event: Option<u64>,
}

// What an event counted, as one number: its work, and 4,294,967,296 more where a number wrapped.
fn seen_of(u: Tally) -> u64
    requires { u.work < 4294967296 }
    ensures { result ≡ seen_of u }
{
    if u.wrapped {
        return u.work + 4294967296;
    }
    u.work
}

// What was counted so, read back.
fn seen_in(n: u64) -> Tally
    ensures { result ≡ seen_in n }
{
    Tally {
        work: n % 4294967296,
        wrapped: 4294967296 <= n,
    }
}

// Case j is quiet if its event is absent, if its update does nothing (input, time and ext) and if a case follows.
fn quiet(
    p: &&[u8],
    index: &[u16; 10080],
    rec: &&[u8],
    st: &[u8],
    env: &mut [u64; 1008],
    j: usize,
    n: Node,
) -> Looked
    requires { CaseAs p.now.now index.now (length st.now) env.old j n }
    ensures { (looked_work result ≡ quiet_work p.now.now rec.now.now st.now env.old j) × (env.new ≡ env.old) × Known p.now.now rec.now.now st.now env.old (a_at p.now.now j) (looked_event result) × Counts result }
{
    if n.b == LAST {
        return Looked::Stands(None);
    }
    let kind = kind_by(*p, index, n.a);
    if kind > 3 {
        return Looked::Stands(None);
    }
    let e = outright(p, index, rec, env, n.a);
    let Some(parts) = apart(e) else {
        return Looked::Stands(Some(e));
    };
    match parts.event {
        None => Looked::Quiet(seen_of(parts.count)),
        Some(_) => Looked::Stands(Some(e)),
    }
}

// The cases from case j on that are quiet so are passed in a loop, each without a level of the walk's recursion. (It goes from case to case by the
// case's own field and counts no index, so a `for` would be no plainer.)
fn pass(
    p: &&[u8],
    index: &[u16; 10080],
    rec: &&[u8],
    st: &[u8],
    env: &mut [u64; 1008],
    j: usize,
) -> Reached
    requires { ReadyC p.now.now index.now (length st.now) env.old j }
    ensures { (result.passed ≡ passed_from p.now.now rec.now.now st.now env.old most_nodes j) × (env.new ≡ env.old) × Known p.now.now rec.now.now st.now env.old (a_at p.now.now result.passed.at) result.event }
{
    let mut passed = Passed {
        at: j,
        seen: 0,
        kept: 0,
    };
    loop {
        let n = node_by(*p, index, passed.at);
        match quiet(p, index, rec, st, env, passed.at, n) {
            Looked::Quiet(u) => {
                passed.seen += u;
                passed.kept += 1;
                passed.at = n.b;
            }
            Looked::Stands(event) => return Reached { passed, event },
        }
    }
}

// The outcome of signal i, which may be known already.
fn event_of(
    p: &&[u8],
    index: &[u16; 10080],
    rec: &&[u8],
    st: &[u8],
    env: &mut [u64; 1008],
    i: usize,
    known: Option<u64>,
    memo: &mut [u64; 1008],
) -> u64
    requires { ReadyS p.now.now index.now st.now env.old i × Noted p.now.now memo.old × Known p.now.now rec.now.now st.now env.old i known }
    ensures { (outcome_in result ≡ eval_s rec.now.now st.now env.old (signal_at p.now.now i)) × IsOutcome result × (env.new ≡ env.old) × Notes p.now.now memo.old memo.new (fill_s rec.now.now st.now env.old (signal_at p.now.now i)) }
{
    match known {
        Some(outcome) => outcome,
        None => evaluated(p, index, rec, st, env, i, memo),
    }
}

// The walk's outcome with what was passed before it: the passed events' updates, a rule each, count only where none was present.
fn added(s: Passed, o: u64) -> u64
    requires { Fits s o }
    ensures { (st : Bytes) → moved (moved_in result) st ≡ quietly s.seen s.kept (moved (moved_in o) st) }
{
    if o == 0 {
        return 0;
    }
    let seen = seen_in(s.seen);
    if o < 1048576 {
        return after(seen, s.kept + o);
    }
    after(seen, o)
}

// (What is lent stands as parameters of their own: crate evaluate says what a struct costs.)

// Signal i goes one step on; input, time and ext, which do nothing, without a call.
#[cycle(goes_in_switch_inside_update_delay_update_group_update_let_update_s_update_switch_update_until_walk_walk_case_walk_on)]
fn goes(
    p: &&[u8],
    index: &[u16; 10080],
    rec: &&[u8],
    st: &mut [u8],
    env: &mut [u64; 1008],
    i: usize,
    memo: &mut [u64; 1008],
) -> u64
    requires { Ready p.now.now index.now (length st.old) env.old i × Noted p.now.now memo.old }
    ensures { (left_in result st.new memo.new ≡ recall_s rec.now.now env.old (signal_at p.now.now i) st.old (memory_in memo.old)) × (env.new ≡ env.old) × Noted p.now.now memo.new }
{
    let kind = kind_by(*p, index, i);
    if kind <= 3 {
        return 1;
    }
    update_s(p, index, rec, st, env, i, memo)
}

// Signal i goes one step on. Input, time and ext do nothing. (Lets and delays come first, by tests that cost less than the table of a match.)
#[cycle(goes_in_switch_inside_update_delay_update_group_update_let_update_s_update_switch_update_until_walk_walk_case_walk_on)]
pub fn update_s(
    p: &&[u8],
    index: &[u16; 10080],
    rec: &&[u8],
    st: &mut [u8],
    env: &mut [u64; 1008],
    i: usize,
    memo: &mut [u64; 1008],
) -> u64
    requires { Ready p.now.now index.now (length st.old) env.old i × Noted p.now.now memo.old }
    ensures { (left_in result st.new memo.new ≡ recall_s rec.now.now env.old (signal_at p.now.now i) st.old (memory_in memo.old)) × (env.new ≡ env.old) × Noted p.now.now memo.new }
{
    let n = node_by(*p, index, i);
    let k = n.kind;
    if k <= 5 {
        if k == 5 {
            return update_let(p, index, rec, st, env, i, n, memo);
        }
        if k == 4 {
            return update_delay(p, index, rec, st, env, i, n, memo);
        }
        return 1;
    }
    match k {
        6 => update_switch(p, index, rec, st, env, i, n, memo),
        7 => update_group(p, index, rec, st, env, i, n, memo),
        _ => update_until(p, index, rec, st, env, i, n, memo),
    }
}

// Signal k with the value v in slot i, which is then put back; input, time and ext, which do nothing, without a call.
#[cycle(goes_in_switch_inside_update_delay_update_group_update_let_update_s_update_switch_update_until_walk_walk_case_walk_on)]
fn inside(
    p: &&[u8],
    index: &[u16; 10080],
    rec: &&[u8],
    st: &mut [u8],
    env: &mut [u64; 1008],
    i: usize,
    v: u64,
    k: usize,
    memo: &mut [u64; 1008],
) -> u64
    requires { Ready p.now.now index.now (length st.old) env.old k × (i < 1008) × IsValue v × Noted p.now.now memo.old }
    ensures { (left_in result st.new memo.new ≡ recall_s rec.now.now (bind env.old i (unpacked v)) (signal_at p.now.now k) st.old (memory_in memo.old)) × (env.new ≡ env.old) × Noted p.now.now memo.new }
{
    if kind_by(*p, index, k) <= 3 {
        return 1;
    }
    let old = env[i];
    env[i] = v;
    let r = update_s(p, index, rec, st, env, k, memo);
    env[i] = old;
    r
}

// A delay evaluates its signal, updates it, then holds that value.
#[cycle(goes_in_switch_inside_update_delay_update_group_update_let_update_s_update_switch_update_until_walk_walk_case_walk_on)]
fn update_delay(
    p: &&[u8],
    index: &[u16; 10080],
    rec: &&[u8],
    st: &mut [u8],
    env: &mut [u64; 1008],
    i: usize,
    n: Node,
    memo: &mut [u64; 1008],
) -> u64
    requires { ReadyAs 4 p.now.now index.now (length st.old) env.old i n × Noted p.now.now memo.old }
    ensures { (left_in result st.new memo.new ≡ recall_s rec.now.now env.old (signal_at p.now.now i) st.old (memory_in memo.old)) × (env.new ≡ env.old) × Noted p.now.now memo.new }
{
    let e = evaluated(p, index, rec, st, env, n.a, memo);
    let Some(shown) = show(e) else {
        return 0;
    };
    let r = goes(p, index, rec, st, env, n.a, memo);
    let Some(w) = settled(r) else {
        return 0;
    };
    hold(index, st, i, shown.value);
    stayed(shown.count, w)
}

// A let takes what the evaluation before noted of its definition, binds, updates the definition, then the body.
#[cycle(goes_in_switch_inside_update_delay_update_group_update_let_update_s_update_switch_update_until_walk_walk_case_walk_on)]
fn update_let(
    p: &&[u8],
    index: &[u16; 10080],
    rec: &&[u8],
    st: &mut [u8],
    env: &mut [u64; 1008],
    i: usize,
    n: Node,
    memo: &mut [u64; 1008],
) -> u64
    requires { ReadyAs 5 p.now.now index.now (length st.old) env.old i n × Noted p.now.now memo.old }
    ensures { (left_in result st.new memo.new ≡ recall_s rec.now.now env.old (signal_at p.now.now i) st.old (memory_in memo.old)) × (env.new ≡ env.old) × Noted p.now.now memo.new }
{
    let e = memo[i];
    let Some(shown) = show(e) else {
        return 0;
    };
    let v = shown.value;
    let d = inside(p, index, rec, st, env, i, v, n.a, memo);
    let Some(w) = settled(d) else {
        return 0;
    };
    let t = together(shown.count, w);
    let b = inside(p, index, rec, st, env, i, v, n.b, memo);
    after(t, b)
}

// A switch evaluates and updates its event; if it is present, the switch catches the value, else it updates the current part.
#[cycle(goes_in_switch_inside_update_delay_update_group_update_let_update_s_update_switch_update_until_walk_walk_case_walk_on)]
fn update_switch(
    p: &&[u8],
    index: &[u16; 10080],
    rec: &&[u8],
    st: &mut [u8],
    env: &mut [u64; 1008],
    i: usize,
    n: Node,
    memo: &mut [u64; 1008],
) -> u64
    requires { ReadyAs 6 p.now.now index.now (length st.old) env.old i n × Noted p.now.now memo.old }
    ensures { (left_in result st.new memo.new ≡ recall_s rec.now.now env.old (signal_at p.now.now i) st.old (memory_in memo.old)) × (env.new ≡ env.old) × Noted p.now.now memo.new }
{
    let e = evaluated(p, index, rec, st, env, n.b, memo);
    let Some(parts) = apart(e) else {
        return 0;
    };
    let r = goes(p, index, rec, st, env, n.b, memo);
    let Some(w) = settled(r) else {
        return 0;
    };
    let Some(v) = parts.event else {
        let q = in_switch(p, index, rec, st, env, i, n, memo);
        return later(parts.count, w, stay(q));
    };
    switches(p, index, st, i, n, v);
    stayed(parts.count, w)
}

// The current part of a switch: first until it has switched, then second, its variable bound.
#[cycle(goes_in_switch_inside_update_delay_update_group_update_let_update_s_update_switch_update_until_walk_walk_case_walk_on)]
fn in_switch(
    p: &&[u8],
    index: &[u16; 10080],
    rec: &&[u8],
    st: &mut [u8],
    env: &mut [u64; 1008],
    i: usize,
    n: Node,
    memo: &mut [u64; 1008],
) -> u64
    requires { ReadyAs 6 p.now.now index.now (length st.old) env.old i n × Noted p.now.now memo.old }
    ensures { (left_in result st.new memo.new ≡ in_switch p.now.now i rec.now.now env.old st.old (memory_in memo.old)) × (env.new ≡ env.old) × Noted p.now.now memo.new }
{
    let m = own_cell(index, st, i);
    if m == 0 {
        let first = n.a;
        return goes(p, index, rec, st, env, first, memo);
    }
    inside(p, index, rec, st, env, i, exactly(m), n.c, memo)
}

// A let continue updates its current part, its body or the branch that its cell names, the argument bound; a jump to one of its branches is caught.
// (Of a branch that does nothing the argument is not made ready.)
#[cycle(goes_in_switch_inside_update_delay_update_group_update_let_update_s_update_switch_update_until_walk_walk_case_walk_on)]
fn update_group(
    p: &&[u8],
    index: &[u16; 10080],
    rec: &&[u8],
    st: &mut [u8],
    env: &mut [u64; 1008],
    i: usize,
    n: Node,
    memo: &mut [u64; 1008],
) -> u64
    requires { ReadyAs 7 p.now.now index.now (length st.old) env.old i n × Noted p.now.now memo.old }
    ensures { (left_in result st.new memo.new ≡ recall_s rec.now.now env.old (signal_at p.now.now i) st.old (memory_in memo.old)) × (env.new ≡ env.old) × Noted p.now.now memo.new }
{
    let m = own_cell(index, st, i);
    if m == 0 {
        let r = goes(p, index, rec, st, env, n.a, memo);
        return catches(p, index, st, i, n, n.a, r);
    }
    let which = branch_in(m);
    if has_branch(*p, index, n.b, which) {
        let branch = node_by(*p, index, which);
        let part = branch.a;
        if kind_by(*p, index, part) <= 3 {
            return catches(p, index, st, i, n, part, 1);
        }
        let r = inside(p, index, rec, st, env, which, exactly(m), part, memo);
        return catches(p, index, st, i, n, part, r);
    }
    0
}

// An until jumps by the first present event; if none is present, events and signal are updated.
#[cycle(goes_in_switch_inside_update_delay_update_group_update_let_update_s_update_switch_update_until_walk_walk_case_walk_on)]
fn update_until(
    p: &&[u8],
    index: &[u16; 10080],
    rec: &&[u8],
    st: &mut [u8],
    env: &mut [u64; 1008],
    i: usize,
    n: Node,
    memo: &mut [u64; 1008],
) -> u64
    requires { ReadyAs 8 p.now.now index.now (length st.old) env.old i n × Noted p.now.now memo.old }
    ensures { (left_in result st.new memo.new ≡ recall_s rec.now.now env.old (signal_at p.now.now i) st.old (memory_in memo.old)) × (env.new ≡ env.old) × Noted p.now.now memo.new }
{
    let o = walk(p, index, rec, st, env, n.b, memo);
    let Some(u) = settled(o) else {
        return ruled(o);
    };
    let r = goes(p, index, rec, st, env, n.a, memo);
    ruled(after(u, stay(r)))
}

// The cases from case j on: the quiet ones by a loop, then one that is not.
#[cycle(goes_in_switch_inside_update_delay_update_group_update_let_update_s_update_switch_update_until_walk_walk_case_walk_on)]
fn walk(
    p: &&[u8],
    index: &[u16; 10080],
    rec: &&[u8],
    st: &mut [u8],
    env: &mut [u64; 1008],
    j: usize,
    memo: &mut [u64; 1008],
) -> u64
    requires { ReadyC p.now.now index.now (length st.old) env.old j × Noted p.now.now memo.old }
    ensures { (left_in result st.new memo.new ≡ walked rec.now.now env.old (cases_at p.now.now j) st.old (memory_in memo.old)) × (env.new ≡ env.old) × Noted p.now.now memo.new }
{
    let reached = pass(p, index, rec, st, env, j);
    let s = reached.passed;
    let at = s.at;
    let o = walk_case(p, index, rec, st, env, at, reached.event, memo);
    added(s, o)
}

// The cases from case j on, whose event's outcome may be known: events in list order up to the first present one.
#[cycle(goes_in_switch_inside_update_delay_update_group_update_let_update_s_update_switch_update_until_walk_walk_case_walk_on)]
fn walk_case(
    p: &&[u8],
    index: &[u16; 10080],
    rec: &&[u8],
    st: &mut [u8],
    env: &mut [u64; 1008],
    j: usize,
    known: Option<u64>,
    memo: &mut [u64; 1008],
) -> u64
    requires { ReadyC p.now.now index.now (length st.old) env.old j × Noted p.now.now memo.old × Known p.now.now rec.now.now st.old env.old (a_at p.now.now j) known }
    ensures { (left_in result st.new memo.new ≡ walked rec.now.now env.old (cases_at p.now.now j) st.old (memory_in memo.old)) × (env.new ≡ env.old) × Noted p.now.now memo.new }
{
    let n = node_by(*p, index, j);
    let e = event_of(p, index, rec, st, env, n.a, known, memo);
    let Some(parts) = apart(e) else {
        return 0;
    };
    let Some(v) = parts.event else {
        let rest = walk_on(p, index, rec, st, env, j, n, memo);
        return after(parts.count, rest);
    };
    jump(n.c, v, parts.count)
}

// The cases after case j, whose event is absent; where none is present, the event is updated on the way back.
#[cycle(goes_in_switch_inside_update_delay_update_group_update_let_update_s_update_switch_update_until_walk_walk_case_walk_on)]
fn walk_on(
    p: &&[u8],
    index: &[u16; 10080],
    rec: &&[u8],
    st: &mut [u8],
    env: &mut [u64; 1008],
    j: usize,
    n: Node,
    memo: &mut [u64; 1008],
) -> u64
    requires { CaseAs p.now.now index.now (length st.old) env.old j n × Noted p.now.now memo.old }
    ensures { (left_in result st.new memo.new ≡ walked_on (walked rec.now.now env.old (next_cases p.now.now j) st.old (memory_in memo.old)) (λ s m. on_outcome stays (recall_s rec.now.now env.old (signal_at p.now.now (a_at p.now.now j)) s m))) × (env.new ≡ env.old) × Noted p.now.now memo.new }
{
    if n.b == LAST {
        let last = goes(p, index, rec, st, env, n.a, memo);
        return stay(last);
    }
    let rest = walk(p, index, rec, st, env, n.b, memo);
    let Some(w) = settled(rest) else {
        return rest;
    };
    let r = goes(p, index, rec, st, env, n.a, memo);
    after(w, stay(r))
}
