// Putting cells to start, and the start state.
#![tactic(auto)]

ghost use Rattle.std.specs.Prelude.{◌≡◌, ◌+◌, ◌-◌, ◌≤◌, ◌<◌, length, get_or, replicate};
ghost use Rattle.rules.specs.Bytes.{write_at};
ghost use Rattle.rules.specs.Values.{packed, value_from};
ghost use Rattle.rules.specs.Layout.{nodes, cell_at, set_cell, header_length, state_length, start_header};
ghost use Rattle.rules.specs.Kinds.{is_signal, is_branch, is_case};
ghost use Rattle.rules.specs.Shaped.{NodeOf};
ghost use Rattle.rules.specs.Tree.{signal_at, branches_at, cases_at};
ghost use Rattle.rules.specs.Reset.{reset_s, reset_b, reset_c, start_state};
ghost use Rattle.cells.specs.Indexed.{Indexed};
ghost use Rattle.state.specs.Stated.{Stated};

use cells::{kind_by, node_by, number_of, put32, set_cell, value_by};
use rules::Node;
use stamp::checks_of;
use table::LAST;
use values::pack_from;

// The content of the first value of a delay.
pub fn first_value(n: Node) -> u64
    ensures { result ≡ packed (value_from n.ty n.b n.word) }
{
    pack_from(n.ty, n.b, n.word)
}

// A content stored in the cell of node i.
pub fn set_own(index: &[u16], st: &mut [u8], i: usize, m: u64)
    requires { (i < length index.now) × (cell_at (get_or index.now i 0) + 8 ≤ length st.old) }
    ensures { st.new ≡ set_cell st.old (get_or index.now i 0) m }
{
    let k = number_of(index, i);
    set_cell(st, k, m);
}

// All cells of the signal at node i put to start; input, time and ext, which have none, without a call.
#[cycle(reset_b_reset_c_reset_s_resets)]
pub fn resets(p: &&[u8], index: &[u16; 10080], st: &mut [u8], i: usize)
    requires { Stated is_signal p.now.now index.now (length st.old) i }
    ensures { st.new ≡ reset_s (signal_at p.now.now i) st.old }
{
    let kind = kind_by(*p, index, i);
    if kind > 3 {
        reset_s(p, index, st, i);
    }
}

// All cells of the signal at node i put to start.
#[cycle(reset_b_reset_c_reset_s_resets)]
fn reset_s(p: &&[u8], index: &[u16; 10080], st: &mut [u8], i: usize)
    requires { Stated is_signal p.now.now index.now (length st.old) i }
    ensures { st.new ≡ reset_s (signal_at p.now.now i) st.old }
{
    let n = node_by(*p, index, i);
    let k = n.kind;
    match k {
        4 => {
            set_own(index, st, i, value_by(*p, index, i));
            resets(p, index, st, n.a);
        }
        5 => {
            resets(p, index, st, n.a);
            resets(p, index, st, n.b);
        }
        6 => {
            set_own(index, st, i, 0);
            resets(p, index, st, n.a);
            resets(p, index, st, n.b);
            resets(p, index, st, n.c);
        }
        7 => {
            set_own(index, st, i, 0);
            resets(p, index, st, n.a);
            reset_b(p, index, st, n.b);
        }
        8 => {
            resets(p, index, st, n.a);
            reset_c(p, index, st, n.b);
        }
        _ => {}
    }
}

// All cells of the list of branches at node j put to start.
#[cycle(reset_b_reset_c_reset_s_resets)]
pub fn reset_b(p: &&[u8], index: &[u16; 10080], st: &mut [u8], j: usize)
    requires { Stated is_branch p.now.now index.now (length st.old) j }
    ensures { st.new ≡ reset_b (branches_at p.now.now j) st.old }
{
    let n = node_by(*p, index, j);
    resets(p, index, st, n.a);
    if n.b != LAST {
        reset_b(p, index, st, n.b);
    }
}

// All cells of the list of cases at node j put to start.
#[cycle(reset_b_reset_c_reset_s_resets)]
pub fn reset_c(p: &&[u8], index: &[u16; 10080], st: &mut [u8], j: usize)
    requires { Stated is_case p.now.now index.now (length st.old) j }
    ensures { st.new ≡ reset_c (cases_at p.now.now j) st.old }
{
    let n = node_by(*p, index, j);
    resets(p, index, st, n.a);
    if n.b != LAST {
        reset_c(p, index, st, n.b);
    }
}

// Every byte zero.
fn clear_all(st: &mut [u8])
    ensures { st.new ≡ replicate (length st.old) 0 }
{
    st.fill(0);
}

// The header of a start state, with no time and the sum of the program's checks, over the first bytes.
fn put_header(p: &[u8], st: &mut [u8])
    requires { header_length ≤ length st.old }
    ensures { st.new ≡ write_at st.old 0 (start_header p.now) }
{
    put32(st, 0, 4294967295);
    let sum = checks_of(p);
    put32(st, 4, sum);
}

// The start state of a program of so many nodes, in memory of its length.
pub fn fill_start(p: &[u8], index: &[u16; 10080], st: &mut [u8], count: usize)
    requires { NodeOf is_signal p.now (nodes p.now - 1) × Indexed p.now index.now × (count ≡ nodes p.now) × (length st.old ≡ state_length p.now) }
    ensures { st.new ≡ start_state p.now }
{
    clear_all(st);
    put_header(p, st);
    reset_s(&p, index, st, count - 1);
}
