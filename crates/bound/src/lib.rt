// The bound on the work of a step: that of evaluation and that of update, in one recursion over children that visits each node once.
#![tactic(auto)]

ghost use Rattle.std.specs.Prelude.{◌≡◌, ◌+◌, ◌-◌, ◌≤◌, ◌<◌, max};
ghost use Rattle.rules.specs.Layout.{nodes};
ghost use Rattle.rules.specs.Kinds.{is_expression, is_signal, is_branch, is_case};
ghost use Rattle.rules.specs.Tree.{expr_at, signal_at, branches_at, cases_at, root};
ghost use Rattle.rules.specs.Size.{size_s};
ghost use Rattle.rules.specs.Bound.{bound_e, bound_s, bound_sb, bound_sc, bound_u, bound_ub, bound_uc, bound};
ghost use Rattle.rules.specs.Shaped.{NodeOf};
ghost use Rattle.bound.specs.SmallTree.{nodes_e, nodes_s, nodes_b, nodes_c, eval_in, update_in, SmallTree, Most, BoundsOf};

use table::{LAST, node};

// The bounds of a signal's evaluation and of its update as one number, so that a recursion answers both in a register.
// (The contract of bound_s says its answer by such a number.)
fn bounds(eval: u32, update: u32) -> u64
    ensures { (eval_in result ≡ eval) × (update_in result ≡ update) }
{
    u64::from(eval) + 4294967296 * u64::from(update)
}

// The bound of its evaluation.
fn eval_in(m: u64) -> u32
    ensures { result ≡ eval_in m }
{
    (m % 4294967296) as u32
}

// The bound of its update.
fn update_in(m: u64) -> u32
    ensures { result ≡ update_in m }
{
    (m / 4294967296) as u32
}

// The larger of two bounds: either part or arm may be the one that runs.
fn larger(m: u32, n: u32) -> u32
    ensures { result ≡ max m n }
{
    m.max(n)
}

// One rule over one part.
fn over(x: u32) -> u32
    requires { x ≤ 1008 }
    ensures { result ≡ 1 + x }
{
    1 + x
}

// One rule over two parts that both run.
fn over_both(x: u32, y: u32) -> u32
    requires { (x ≤ 1008) × (y ≤ 1008) }
    ensures { result ≡ 1 + (x + y) }
{
    1 + (x + y)
}

// One rule over a test and either of two arms.
fn over_arms(test: u32, x: u32, y: u32) -> u32
    requires { (test ≤ 1008) × (x ≤ 1008) × (y ≤ 1008) }
    ensures { result ≡ 1 + (test + max x y) }
{
    1 + (test + larger(x, y))
}

// An evaluation alone: the update of such a signal is one rule.
fn evaluated(x: u32) -> u64
    requires { x ≤ 1008 }
    ensures { (eval_in result ≡ 1 + x) × (update_in result ≡ 1) }
{
    bounds(1 + x, 1)
}

// A delay answers at once; its update evaluates and updates what it delays.
fn delayed(s: u64) -> u64
    requires { Most s }
    ensures { (eval_in result ≡ 1) × (update_in result ≡ 1 + (eval_in s + update_in s)) }
{
    bounds(1, 1 + (eval_in(s) + update_in(s)))
}

// A let runs its definition and its body.
fn letting(d: u64, b: u64) -> u64
    requires { Most d × Most b }
    ensures { (eval_in result ≡ 1 + (eval_in d + eval_in b)) × (update_in result ≡ 1 + (eval_in d + (update_in d + update_in b))) }
{
    bounds(
        1 + (eval_in(d) + eval_in(b)),
        1 + (eval_in(d) + (update_in(d) + update_in(b))),
    )
}

// A switch runs either part, and its event at the update.
fn switching(x: u64, e: u64, y: u64) -> u64
    requires { Most x × Most e × Most y }
    ensures { (eval_in result ≡ 1 + max (eval_in x) (eval_in y)) × (update_in result ≡ 1 + (eval_in e + (update_in e + max (update_in x) (update_in y)))) }
{
    bounds(
        1 + larger(eval_in(x), eval_in(y)),
        1 + (eval_in(e) + (update_in(e) + larger(update_in(x), update_in(y)))),
    )
}

// A group runs its body or one of its branches.
fn grouping(body: u64, brs: u64) -> u64
    requires { Most body × Most brs }
    ensures { (eval_in result ≡ 1 + max (eval_in body) (eval_in brs)) × (update_in result ≡ 1 + max (update_in body) (update_in brs)) }
{
    bounds(
        1 + larger(eval_in(body), eval_in(brs)),
        1 + larger(update_in(body), update_in(brs)),
    )
}

// An until runs its signal, and all its events at the update.
fn leaving(s: u64, cases: u64) -> u64
    requires { Most s × Most cases }
    ensures { (eval_in result ≡ 1 + eval_in s) × (update_in result ≡ 1 + (eval_in cases + (update_in cases + update_in s))) }
{
    bounds(
        1 + eval_in(s),
        1 + (eval_in(cases) + (update_in(cases) + update_in(s))),
    )
}

// The largest of a list's branches.
fn largest(body: u64, rest: u64) -> u64
    ensures { (eval_in result ≡ max (eval_in body) (eval_in rest)) × (update_in result ≡ max (update_in body) (update_in rest)) }
{
    bounds(
        larger(eval_in(body), eval_in(rest)),
        larger(update_in(body), update_in(rest)),
    )
}

// The sum over a list's events.
fn sum(event: u64, rest: u64) -> u64
    requires { Most event × Most rest }
    ensures { (eval_in result ≡ eval_in event + eval_in rest) × (update_in result ≡ update_in event + update_in rest) }
{
    bounds(
        eval_in(event) + eval_in(rest),
        update_in(event) + update_in(rest),
    )
}

// Expression i as a part: a variable or a constant is one rule, answered without a call.
#[cycle(bound_e_leaf)]
fn leaf(p: &&[u8], i: usize) -> u32
    requires { SmallTree is_expression nodes_e p.now.now i }
    ensures { (result ≡ bound_e (expr_at p.now.now i)) × (result ≤ 1008) }
{
    let n = node(*p, i);
    let k = n.kind;
    match k {
        16 => 1,
        17 => 1,
        _ => bound_e(p, i),
    }
}

// Expression i.
#[cycle(bound_e_leaf)]
pub fn bound_e(p: &&[u8], i: usize) -> u32
    requires { SmallTree is_expression nodes_e p.now.now i }
    ensures { (result ≡ bound_e (expr_at p.now.now i)) × (result ≤ 1008) }
{
    let n = node(*p, i);
    let k = n.kind;
    match k {
        16 => 1,
        17 => 1,
        24 => over(leaf(p, n.a)),
        27 => {
            let test = leaf(p, n.a);
            let x = leaf(p, n.b);
            let y = leaf(p, n.c);
            over_arms(test, x, y)
        }
        28 => over(leaf(p, n.a)),
        29 => {
            let m = leaf(p, n.a);
            let x = leaf(p, n.b);
            let y = leaf(p, n.c);
            over_arms(m, x, y)
        }
        _ => {
            let x = leaf(p, n.a);
            let y = leaf(p, n.b);
            over_both(x, y)
        }
    }
}

// Signal i.
#[cycle(bound_b_bound_c_bound_s)]
pub fn bound_s(p: &&[u8], i: usize) -> u64
    requires { SmallTree is_signal nodes_s p.now.now i }
    ensures { BoundsOf (bound_s (signal_at p.now.now i)) (bound_u (signal_at p.now.now i)) result }
{
    let n = node(*p, i);
    let k = n.kind;
    match k {
        1 => bounds(1, 1),
        3 => evaluated(bound_e(p, n.a)),
        4 => delayed(bound_s(p, n.a)),
        5 => {
            let d = bound_s(p, n.a);
            let b = bound_s(p, n.b);
            letting(d, b)
        }
        6 => {
            let x = bound_s(p, n.a);
            let e = bound_s(p, n.b);
            let y = bound_s(p, n.c);
            switching(x, e, y)
        }
        7 => {
            let body = bound_s(p, n.a);
            let brs = bound_b(p, n.b);
            grouping(body, brs)
        }
        8 => {
            let s = bound_s(p, n.a);
            let cases = bound_c(p, n.b);
            leaving(s, cases)
        }
        _ => bounds(1, 1),
    }
}

// The list of branches at node j: the largest of both.
#[cycle(bound_b_bound_c_bound_s)]
pub fn bound_b(p: &&[u8], j: usize) -> u64
    requires { SmallTree is_branch nodes_b p.now.now j }
    ensures { BoundsOf (bound_sb (branches_at p.now.now j)) (bound_ub (branches_at p.now.now j)) result }
{
    let n = node(*p, j);
    let body = bound_s(p, n.a);
    if n.b == LAST {
        return largest(body, bounds(0, 0));
    }
    let rest = bound_b(p, n.b);
    largest(body, rest)
}

// The list of cases at node j: the sum of both.
#[cycle(bound_b_bound_c_bound_s)]
pub fn bound_c(p: &&[u8], j: usize) -> u64
    requires { SmallTree is_case nodes_c p.now.now j }
    ensures { BoundsOf (bound_sc (cases_at p.now.now j)) (bound_uc (cases_at p.now.now j)) result }
{
    let n = node(*p, j);
    let event = bound_s(p, n.a);
    if n.b == LAST {
        return sum(event, bounds(0, 0));
    }
    let rest = bound_c(p, n.b);
    sum(event, rest)
}

// The bound of a program whose root is a signal of at most 1008 nodes.
pub fn bound_of(p: &[u8], count: usize) -> u32
    requires { (count ≡ nodes p.now) × (0 < count) × NodeOf is_signal p.now (count - 1) × (size_s (root p.now) ≤ 1008) }
    ensures { result ≡ bound p.now }
{
    let b = bound_s(&p, count - 1);
    eval_in(b) + update_in(b)
}
