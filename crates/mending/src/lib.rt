// Bringing a state back, in place: from the root downward.
#![tactic(auto)]

ghost use Rattle.std.specs.Prelude.{◌≡◌, ◌+◌, ◌-◌, ◌≤◌, ◌<◌, length, get_or, if◌then◌else◌};
ghost use Rattle.rules.specs.Node.{IsNode};
ghost use Rattle.rules.specs.Values.{packed, value_from};
ghost use Rattle.rules.specs.Layout.{nodes, kind_at, state_length, cell_at, cell as cellIn, header_length, set_cell};
ghost use Rattle.rules.specs.Kinds.{is_signal, is_branch, is_case};
ghost use Rattle.rules.specs.Shaped.{NodeOf};
ghost use Rattle.rules.specs.Tree.{signal_at, branches_at, cases_at};
ghost use Rattle.rules.specs.WellFormed.{content_fits};
ghost use Rattle.cells.specs.Indexed.{Indexed};
ghost use Rattle.state.specs.Stated.{Stated};
ghost use Rattle.mends.specs.Mend.{names_branch, mend_s, mend_b, mend_c, mend_time, mended};

use cells::{last_time, node_by, own_cell, set_time};
use rules::Node;
use state::{first_value, reset_b, resets, set_own};
use table::LAST;
use well::{content_fits, middle_in};

// A content of a group's cell names one of the branches from node j on, with a value of its type.
fn names_branch(p: &&[u8], index: &[u16; 10080], size: usize, m: u64, j: usize) -> bool
    requires { Stated is_branch p.now.now index.now size j }
    ensures { result ≡ names_branch m (branches_at p.now.now j) }
{
    let n = node_by(*p, index, j);
    if j == middle_in(m) {
        return content_fits(n.ty, j, m);
    }
    if n.b == LAST {
        return false;
    }
    names_branch(p, index, size, m, n.b)
}

// The cell of delay i, kept if its content is a value of its type, otherwise put to start.
fn mend_own(index: &[u16], st: &mut [u8], i: usize, n: Node)
    requires { (i < length index.now) × (cell_at (get_or index.now i 0) + 8 ≤ length st.old) }
    ensures { st.new ≡ (if content_fits n.ty 0 (cellIn st.old (get_or index.now i 0)) then st.old else set_cell st.old (get_or index.now i 0) (packed (value_from n.ty n.b n.word))) }
{
    let held = own_cell(index, st, i);
    if content_fits(n.ty, 0, held) {
        return;
    }
    set_own(index, st, i, first_value(n));
}

// The signal at node i, in a current part.
#[cycle(mend_b_mend_c_mend_group_mend_s_mend_switch)]
fn mend_s(p: &&[u8], index: &[u16; 10080], st: &mut [u8], i: usize)
    requires { Stated is_signal p.now.now index.now (length st.old) i }
    ensures { st.new ≡ mend_s (signal_at p.now.now i) st.old }
{
    let n = node_by(*p, index, i);
    let k = n.kind;
    match k {
        4 => {
            mend_own(index, st, i, n);
            mend_s(p, index, st, n.a);
        }
        5 => {
            mend_s(p, index, st, n.a);
            mend_s(p, index, st, n.b);
        }
        6 => mend_switch(p, index, st, i, n),
        7 => mend_group(p, index, st, i, n),
        8 => {
            mend_s(p, index, st, n.a);
            mend_c(p, index, st, n.b);
        }
        _ => {}
    }
}

// A switch: switched with a content that fits, or put to start.
#[cycle(mend_b_mend_c_mend_group_mend_s_mend_switch)]
fn mend_switch(p: &&[u8], index: &[u16; 10080], st: &mut [u8], i: usize, n: Node)
    requires { Stated is_signal p.now.now index.now (length st.old) i × IsNode p.now.now i n × (kind_at p.now.now i ≡ 6) }
    ensures { st.new ≡ mend_s (signal_at p.now.now i) st.old }
{
    let m = own_cell(index, st, i);
    if content_fits(n.ty, 0, m) {
        mend_s(p, index, st, n.b);
        resets(p, index, st, n.a);
        mend_s(p, index, st, n.c);
    } else {
        set_own(index, st, i, 0);
        mend_s(p, index, st, n.b);
        mend_s(p, index, st, n.a);
        resets(p, index, st, n.c);
    }
}

// A group: in one of its branches, or put to start.
#[cycle(mend_b_mend_c_mend_group_mend_s_mend_switch)]
fn mend_group(p: &&[u8], index: &[u16; 10080], st: &mut [u8], i: usize, n: Node)
    requires { Stated is_signal p.now.now index.now (length st.old) i × IsNode p.now.now i n × (kind_at p.now.now i ≡ 7) }
    ensures { st.new ≡ mend_s (signal_at p.now.now i) st.old }
{
    let m = own_cell(index, st, i);
    let size = st.len();
    if names_branch(p, index, size, m, n.b) {
        resets(p, index, st, n.a);
        mend_b(p, index, st, m, n.b);
    } else {
        set_own(index, st, i, 0);
        mend_s(p, index, st, n.a);
        reset_b(p, index, st, n.b);
    }
}

// The list of branches at node j, of which a content of the group's cell names one.
#[cycle(mend_b_mend_c_mend_group_mend_s_mend_switch)]
fn mend_b(p: &&[u8], index: &[u16; 10080], st: &mut [u8], m: u64, j: usize)
    requires { Stated is_branch p.now.now index.now (length st.old) j }
    ensures { st.new ≡ mend_b m (branches_at p.now.now j) st.old }
{
    let n = node_by(*p, index, j);
    if j == middle_in(m) {
        mend_s(p, index, st, n.a);
        if n.b != LAST {
            reset_b(p, index, st, n.b);
        }
    } else {
        resets(p, index, st, n.a);
        if n.b != LAST {
            mend_b(p, index, st, m, n.b);
        }
    }
}

// The list of cases at node j.
#[cycle(mend_b_mend_c_mend_group_mend_s_mend_switch)]
fn mend_c(p: &&[u8], index: &[u16; 10080], st: &mut [u8], j: usize)
    requires { Stated is_case p.now.now index.now (length st.old) j }
    ensures { st.new ≡ mend_c (cases_at p.now.now j) st.old }
{
    let n = node_by(*p, index, j);
    mend_s(p, index, st, n.a);
    if n.b != LAST {
        mend_c(p, index, st, n.b);
    }
}

// A time that is none and too large becomes none.
fn mend_time(st: &mut [u8])
    requires { header_length ≤ length st.old }
    ensures { st.new ≡ mend_time st.old }
{
    let time = last_time(st);
    if time == 4294967295 {
        return;
    }
    if time <= 2147483647 {
        return;
    }
    set_time(st, 4294967295);
}

// The cells and the time of a state of a program of so many nodes brought back.
pub fn bring_back(p: &[u8], index: &[u16; 10080], st: &mut [u8], count: usize)
    requires { NodeOf is_signal p.now (nodes p.now - 1) × Indexed p.now index.now × (count ≡ nodes p.now) × (length st.old ≡ state_length p.now) }
    ensures { st.new ≡ mended p.now st.old }
{
    mend_time(st);
    mend_s(&p, index, st, count - 1);
}
