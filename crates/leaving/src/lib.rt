// The part that is left goes to start: what a switch that catches a value and a group that takes a branch do with their cells.
#![tactic(auto)]

ghost use Rattle.std.specs.Prelude.{◌≡◌, length};
ghost use Rattle.rules.specs.Values.{unpacked};
ghost use Rattle.rules.specs.Kinds.{is_signal, is_branch};
ghost use Rattle.rules.specs.Shaped.{NodeOf};
ghost use Rattle.outcomes.specs.Outcome.{IsValue};
ghost use Rattle.moves.specs.Parts.{switched, entered};
ghost use Rattle.moves.specs.Lent.{Placed};

use cells::own_cell;
use moves::{hold, hold_branch};
use rules::Node;
use state::resets;

// Switch i catches the value v: the part that is left goes to start.
pub fn switches(p: &&[u8], index: &[u16; 10080], st: &mut [u8], i: usize, n: Node, v: u64)
    requires { Placed 6 p.now.now index.now (length st.old) i n × IsValue v }
    ensures { st.new ≡ switched p.now.now i st.old (unpacked v) }
{
    let m = own_cell(index, st, i);
    hold(index, st, i, v);
    if m == 0 {
        resets(p, index, st, n.a);
    } else {
        resets(p, index, st, n.c);
    }
}

// Group i takes the branch and the value v: the part that is left goes to start.
pub fn enters(
    p: &&[u8],
    index: &[u16; 10080],
    st: &mut [u8],
    i: usize,
    n: Node,
    part: usize,
    which: usize,
    v: u64,
)
    requires { Placed 7 p.now.now index.now (length st.old) i n × NodeOf is_signal p.now.now part × NodeOf is_branch p.now.now which × IsValue v }
    ensures { st.new ≡ entered p.now.now i part st.old which (unpacked v) }
{
    hold_branch(index, st, i, which, v);
    resets(p, index, st, part);
}
