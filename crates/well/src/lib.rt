// Which states are well-formed.
#![tactic(auto)]

ghost use Rattle.std.specs.Prelude.{◌≡◌, ◌-◌, ◌<◌, length};
ghost use Rattle.rules.specs.Values.{type_in, middle_in};
ghost use Rattle.rules.specs.Layout.{nodes, cells as cells_of, checks_of, state_length};
ghost use Rattle.rules.specs.Kinds.{is_signal, is_branch, is_case};
ghost use Rattle.rules.specs.Shaped.{NodeOf};
ghost use Rattle.rules.specs.Tree.{signal_at, branches_at, cases_at};
ghost use Rattle.rules.specs.Reset.{rests_s, rests_b, rests_c};
ghost use Rattle.rules.specs.WellFormed.{content_fits, well_s, well_b, well_c, rest_well};
ghost use Rattle.rules.specs.Calls.{state_verdict};
ghost use Rattle.cells.specs.Indexed.{Indexed};
ghost use Rattle.state.specs.Stated.{Stated};

use answers::refuse_if;
use cells::{cell_at, last_time, own_cell};
use rules::Refusal;
use stamp::{checks_of, sum_in};
use state::first_value;
use table::{LAST, node};
use values::{type_in, value_fits};

// The number in bytes 2-3 of a content.
pub fn middle_in(m: u64) -> usize
    ensures { result ≡ middle_in m }
{
    (m / 65536 % 65536) as usize
}

// A content is a value of type t, with a number in bytes 2-3.
pub fn content_fits(t: u8, middle: usize, m: u64) -> bool
    ensures { result ≡ content_fits t middle m }
{
    let fits = value_fits(t, m / 256 % 256, m / 4294967296);
    (type_in(m) == t) & (middle_in(m) == middle) & fits
}

// All cells of the signal at node i hold their start content.
#[cycle(rests_b_rests_c_rests_s)]
fn rests_s(p: &&[u8], index: &[u16; 10080], st: &&[u8], i: usize) -> bool
    requires { Stated is_signal p.now.now index.now (length st.now.now) i }
    ensures { result ≡ rests_s st.now.now (signal_at p.now.now i) }
{
    let n = node(*p, i);
    let k = n.kind;
    match k {
        4 => {
            let m = own_cell(index, *st, i);
            let s = rests_s(p, index, st, n.a);
            (m == first_value(n)) & s
        }
        5 => rests_s(p, index, st, n.a) & rests_s(p, index, st, n.b),
        6 => {
            let m = own_cell(index, *st, i);
            let x = rests_s(p, index, st, n.a);
            let e = rests_s(p, index, st, n.b);
            let y = rests_s(p, index, st, n.c);
            (m == 0) & x & e & y
        }
        7 => {
            let m = own_cell(index, *st, i);
            let body = rests_s(p, index, st, n.a);
            let brs = rests_b(p, index, st, n.b);
            (m == 0) & body & brs
        }
        8 => rests_s(p, index, st, n.a) & rests_c(p, index, st, n.b),
        _ => true,
    }
}

// All cells of the list of branches at node j hold their start content.
#[cycle(rests_b_rests_c_rests_s)]
fn rests_b(p: &&[u8], index: &[u16; 10080], st: &&[u8], j: usize) -> bool
    requires { Stated is_branch p.now.now index.now (length st.now.now) j }
    ensures { result ≡ rests_b st.now.now (branches_at p.now.now j) }
{
    let n = node(*p, j);
    let body = rests_s(p, index, st, n.a);
    if n.b == LAST {
        return body;
    }
    let next = rests_b(p, index, st, n.b);
    body & next
}

// All cells of the list of cases at node j hold their start content.
#[cycle(rests_b_rests_c_rests_s)]
fn rests_c(p: &&[u8], index: &[u16; 10080], st: &&[u8], j: usize) -> bool
    requires { Stated is_case p.now.now index.now (length st.now.now) j }
    ensures { result ≡ rests_c st.now.now (cases_at p.now.now j) }
{
    let n = node(*p, j);
    let event = rests_s(p, index, st, n.a);
    if n.b == LAST {
        return event;
    }
    let next = rests_c(p, index, st, n.b);
    event & next
}

// The cells of the signal at node i are valid, and start where they are not current.
#[cycle(well_b_well_c_well_s)]
fn well_s(p: &&[u8], index: &[u16; 10080], st: &&[u8], i: usize) -> bool
    requires { Stated is_signal p.now.now index.now (length st.now.now) i }
    ensures { result ≡ well_s st.now.now (signal_at p.now.now i) }
{
    let n = node(*p, i);
    let k = n.kind;
    match k {
        4 => {
            let m = own_cell(index, *st, i);
            let s = well_s(p, index, st, n.a);
            content_fits(n.ty, 0, m) & s
        }
        5 => well_s(p, index, st, n.a) & well_s(p, index, st, n.b),
        6 => {
            let m = own_cell(index, *st, i);
            let e = well_s(p, index, st, n.b);
            if m == 0 {
                let x = well_s(p, index, st, n.a);
                let y = rests_s(p, index, st, n.c);
                return e & (x & y);
            }
            let x = rests_s(p, index, st, n.a);
            let y = well_s(p, index, st, n.c);
            e & (content_fits(n.ty, 0, m) & x & y)
        }
        7 => {
            let m = own_cell(index, *st, i);
            if m == 0 {
                let body = well_s(p, index, st, n.a);
                let brs = rests_b(p, index, st, n.b);
                return body & brs;
            }
            let body = rests_s(p, index, st, n.a);
            let brs = well_b(p, index, st, n.b, m);
            body & brs
        }
        8 => well_s(p, index, st, n.a) & well_c(p, index, st, n.b),
        _ => true,
    }
}

// One branch of the list at node j is the one that the content m of its group's cell names.
#[cycle(well_b_well_c_well_s)]
fn well_b(p: &&[u8], index: &[u16; 10080], st: &&[u8], j: usize, m: u64) -> bool
    requires { Stated is_branch p.now.now index.now (length st.now.now) j }
    ensures { result ≡ well_b st.now.now m (branches_at p.now.now j) }
{
    let n = node(*p, j);
    if j == middle_in(m) {
        let body = well_s(p, index, st, n.a);
        let here = content_fits(n.ty, j, m) & body;
        if n.b == LAST {
            return here;
        }
        let next = rests_b(p, index, st, n.b);
        return here & next;
    }
    let body = rests_s(p, index, st, n.a);
    if n.b == LAST {
        return false;
    }
    let next = well_b(p, index, st, n.b, m);
    body & next
}

// The cells of the list of cases at node j are valid, and start where they are not current.
#[cycle(well_b_well_c_well_s)]
fn well_c(p: &&[u8], index: &[u16; 10080], st: &&[u8], j: usize) -> bool
    requires { Stated is_case p.now.now index.now (length st.now.now) j }
    ensures { result ≡ well_c st.now.now (cases_at p.now.now j) }
{
    let n = node(*p, j);
    let event = well_s(p, index, st, n.a);
    if n.b == LAST {
        return event;
    }
    let next = well_c(p, index, st, n.b);
    event & next
}

// The time and the cells of a state of the right length.
fn rest_well(p: &[u8], index: &[u16; 10080], st: &[u8], count: usize) -> bool
    requires { NodeOf is_signal p.now (nodes p.now - 1) × Indexed p.now index.now × (count ≡ nodes p.now) × (length st.now ≡ state_length p.now) }
    ensures { result ≡ rest_well p.now st.now }
{
    let time = last_time(st);
    let timed = (time == 4294967295) | (time <= 2147483647);
    let well = well_s(&p, index, &st, count - 1);
    timed & well
}

// The fault of a state of any length, for a program of so many nodes and cells: 9 for its length, then 15 for a wrong sum, then 9 for the rest.
pub fn state_verdict(
    p: &[u8],
    index: &[u16; 10080],
    st: &[u8],
    count: usize,
    cells: usize,
) -> Result<(), Refusal>
    requires { NodeOf is_signal p.now (nodes p.now - 1) × Indexed p.now index.now × (count ≡ nodes p.now) × (cells ≡ cells_of p.now) × (checks_of p.now < 4294967296) }
    ensures { result ≡ state_verdict p.now st.now }
{
    if st.len() != cell_at(cells) {
        return Err(Refusal::StateFault);
    }
    refuse_if(sum_in(st) != checks_of(p), Refusal::OtherProgram)?;
    refuse_if(!rest_well(p, index, st, count), Refusal::StateFault)
}
