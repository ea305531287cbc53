// The cells of a state and its time, as bytes that are read and written in place; and the table of the cells' and branches' numbers.
#![tactic(auto)]

ghost use Rattle.std.specs.Prelude.{◌≡◌, ◌+◌, ◌*◌, ◌≤◌, ◌<◌, length, get_or};
ghost use Rattle.rules.specs.Bytes.{u16_at, u64_at, bytes_of, write_at};
ghost use Rattle.rules.specs.Layout.{nodes, records, kind_at, type_at, b_at, word_at, has_cell, cells_before, cell_at, cell as cellIn, set_cell, header_length, last_time, set_time};
ghost use Rattle.rules.specs.Node.{IsNode};
ghost use Rattle.rules.specs.Values.{packed, value_from};
ghost use Rattle.rules.specs.Shaped.{Shaped};
ghost use Rattle.cells.specs.Indexed.{ListedOnce, Numbers, SignalsKept, ListedFrom, Listed, table_room, Stored, Spread, Row, Elsewhere, Indexed};

use rules::Node;
use table::{LAST, half_at, node, node_at, u32_at};
use values::pack_from;

// Where the columns of the table begin, behind the numbers of 1,008 nodes: the kinds, the types, the fields a, b and c, and the values, four
// places each.
const KINDS: usize = 1008;

const TYPES: usize = 2016;

const FIELDS_A: usize = 3024;

const FIELDS_B: usize = 4032;

const FIELDS_C: usize = 5040;

const VALUES: usize = 6048;

// The number of 8 bytes at a position.
pub fn u64_at(s: &[u8], at: usize) -> u64
    requires { at + 8 ≤ length s.now }
    ensures { result ≡ u64_at s.now at }
{
    u64::from(u32_at(s, at)) + 4294967296 * u64::from(u32_at(s, at + 4))
}

// A number written as so many bytes: one loop for every width.
pub fn put(s: &mut [u8], at: usize, x: u64, count: usize)
    requires { at + count ≤ length s.old }
    ensures { s.new ≡ write_at s.old at (bytes_of count x) }
{
    let mut left = x;
    for k in 0..count {
        s[at + k] = (left % 256) as u8;
        left /= 256;
    }
}

// A number written as 4 bytes. (This and the next are put at the two widths that crates above write: no loop of their own.)
pub fn put32(s: &mut [u8], at: usize, x: u32)
    requires { at + 4 ≤ length s.old }
    ensures { s.new ≡ write_at s.old at (bytes_of 4 x) }
{
    put(s, at, u64::from(x), 4);
}

// A number written as 8 bytes.
pub fn put64(s: &mut [u8], at: usize, x: u64)
    requires { at + 8 ≤ length s.old }
    ensures { s.new ≡ write_at s.old at (bytes_of 8 x) }
{
    put(s, at, x, 8);
}

// Where cell k stands: the one place that knows the length of the header.
pub fn cell_at(k: usize) -> usize
    requires { cell_at k < 18446744073709551616 }
    ensures { result ≡ cell_at k }
{
    8 + 8 * k
}

// The content of cell k.
pub fn cell(st: &[u8], k: usize) -> u64
    requires { cell_at k + 8 ≤ length st.now }
    ensures { result ≡ cellIn st.now k }
{
    let at = cell_at(k);
    u64_at(st, at)
}

// A content stored in cell k.
pub fn set_cell(st: &mut [u8], k: usize, m: u64)
    requires { cell_at k + 8 ≤ length st.old }
    ensures { st.new ≡ set_cell st.old k m }
{
    let at = cell_at(k);
    put64(st, at, m);
}

// The time of the last step; all ones if there was none.
pub fn last_time(st: &[u8]) -> u32
    requires { header_length ≤ length st.now }
    ensures { result ≡ last_time st.now }
{
    u32_at(st, 0)
}

// The time of the last step, stored.
pub fn set_time(st: &mut [u8], t: u32)
    requires { header_length ≤ length st.old }
    ensures { st.new ≡ set_time st.old t }
{
    put32(st, 0, t);
}

// The kind of node i.
pub fn kind_of(p: &[u8], i: usize) -> u8
    requires { (i < records p.now) × (i < 1008) }
    ensures { result ≡ kind_at p.now i }
{
    let at = node_at(p, i);
    p[at]
}

// Nodes of kind 4, 6 and 7 have a cell.
fn has_cell(k: u8) -> bool
    ensures { result ≡ has_cell k }
{
    matches!(k, 4 | 6 | 7)
}

// What the table has for node i: the number of its cell, or of the first branch of its list.
pub fn number_of(index: &[u16], i: usize) -> usize
    requires { i < length index.now }
    ensures { result ≡ get_or index.now i 0 }
{
    usize::from(index[i])
}

// The content of the cell of node i.
pub fn own_cell(index: &[u16], st: &[u8], i: usize) -> u64
    requires { (i < length index.now) × (cell_at (get_or index.now i 0) + 8 ≤ length st.now) }
    ensures { result ≡ cellIn st.now (get_or index.now i 0) }
{
    let k = number_of(index, i);
    cell(st, k)
}

// The branch that node i names gets its number: a group's first branch its own, a branch's next one what the branch has.
fn name_branch(p: &[u8], index: &mut [u16], i: usize)
    requires { Shaped p.now × (i < nodes p.now) × ListedOnce p.now × ListedFrom (i + 1) p.now index.old }
    ensures { ListedFrom i p.now index.new × SignalsKept p.now index.old index.new }
{
    let kind = kind_of(p, i);
    if kind == 7 {
        let group = node(p, i);
        let first = group.b;
        index[first] = first as u16;
        return;
    }
    if kind != 9 {
        return;
    }
    let branch = node(p, i);
    let next = branch.b;
    if next == LAST {
        return;
    }
    index[next] = index[i];
}

// The numbers of the branches, from the last node down: children have smaller numbers, so what a branch has is known when it is passed.
pub fn index_branches(p: &[u8], index: &mut [u16], count: usize)
    requires { Shaped p.now × ListedOnce p.now × (count ≡ nodes p.now) × (count ≤ length index.old) }
    ensures { Listed p.now index.new × SignalsKept p.now index.old index.new }
{
    for i in (0..count).rev() {
        name_branch(p, index, i);
    }
}

// How many cells the nodes have.
pub fn count_cells(p: &[u8], count: usize) -> usize
    requires { Shaped p.now × (count ≡ nodes p.now) }
    ensures { result ≡ cells_before p.now count }
{
    let mut seen: usize = 0;
    for i in 0..count {
        if has_cell(kind_of(p, i)) {
            seen += 1;
        }
    }
    seen
}

// A number put into the table.
fn store(index: &mut [u16], at: usize, x: u16)
    requires { at < length index.old }
    ensures { Stored index.old at x index.new }
{
    index[at] = x;
}

// The 8 bytes of a value put into four places of the table.
fn store_value(index: &mut [u16], at: usize, v: u64)
    requires { (at + 4 ≤ length index.old) × (at < 10080) }
    ensures { Spread index.old at v index.new }
{
    let low = v % 4294967296;
    let high = v / 4294967296;
    store(index, at, (low % 65536) as u16);
    store(index, at + 1, (low / 65536) as u16);
    store(index, at + 2, (high % 65536) as u16);
    store(index, at + 3, (high / 65536) as u16);
}

// Row i of the table: the fields of node i, each in a column of its own behind the numbers, and the value that a delay or a constant has.
fn put_row(p: &[u8], index: &mut [u16], i: usize)
    requires { Shaped p.now × (i < nodes p.now) × (table_room ≤ length index.old) }
    ensures { Row p.now index.new i × Elsewhere i index.old index.new }
{
    let n = node(p, i);
    let at = node_at(p, i);
    let b = half_at(p, at + 4);
    let v = pack_from(n.ty, usize::from(b), n.word);
    store(index, KINDS + i, u16::from(n.kind));
    store(index, TYPES + i, u16::from(n.ty));
    store(index, FIELDS_A + i, half_at(p, at + 2));
    store(index, FIELDS_B + i, b);
    store(index, FIELDS_C + i, half_at(p, at + 6));
    store_value(index, VALUES + 4 * i, v);
}

// The rows of all nodes, behind the numbers.
fn index_rows(p: &[u8], index: &mut [u16], count: usize)
    requires { Shaped p.now × (count ≡ nodes p.now) × (table_room ≤ length index.old) × Listed p.now index.old × Numbers p.now index.old }
    ensures { Indexed p.now index.new }
{
    for i in 0..count {
        put_row(p, index, i);
    }
}

// The table, filled in three passes; the answer is how many cells the nodes have.
pub fn index_cells(p: &[u8], index: &mut [u16], count: usize) -> usize
    requires { Shaped p.now × ListedOnce p.now × (count ≡ nodes p.now) × (table_room ≤ length index.old) }
    ensures { Indexed p.now index.new × (result ≡ cells_before p.now count) }
{
    let mut seen: usize = 0;
    for i in 0..count {
        index[i] = seen as u16;
        if has_cell(kind_of(p, i)) {
            seen += 1;
        }
    }
    index_branches(p, index, count);
    index_rows(p, index, count);
    seen
}

// What stands at a place of the table.
fn column(index: &[u16], at: usize) -> usize
    requires { at < length index.now }
    ensures { (result ≡ get_or index.now at 0) × (result < 65536) }
{
    usize::from(index[at])
}

// The fields of node i, by the table. (The word, which values have from the table, is read from the record.)
pub fn node_by(p: &[u8], index: &[u16; 10080], i: usize) -> Node
    requires { Indexed p.now index.now × Shaped p.now × (i < nodes p.now) }
    ensures { IsNode p.now i result }
{
    let at = node_at(p, i);
    Node {
        kind: column(index, KINDS + i) as u8,
        ty: column(index, TYPES + i) as u8,
        a: column(index, FIELDS_A + i),
        b: column(index, FIELDS_B + i),
        c: column(index, FIELDS_C + i),
        word: u32_at(p, at + 8),
    }
}

// The value of node i, a delay or a constant, by the table: its 8 bytes.
pub fn value_by(p: &[u8], index: &[u16; 10080], i: usize) -> u64
    requires { Indexed p.now index.now × Shaped p.now × (i < nodes p.now) }
    ensures { result ≡ packed (value_from (type_at p.now i) (b_at p.now i) (word_at p.now i)) }
{
    let at = VALUES + 4 * i;
    let low = column(index, at) + 65536 * column(index, at + 1);
    let high = column(index, at + 2) + 65536 * column(index, at + 3);
    (low + 4294967296 * high) as u64
}

// The kind of node i, by the table.
pub fn kind_by(p: &[u8], index: &[u16; 10080], i: usize) -> u8
    requires { Indexed p.now index.now × Shaped p.now × (i < nodes p.now) }
    ensures { result ≡ kind_at p.now i }
{
    column(index, KINDS + i) as u8
}
