// Tables that have grown old: lets whose variable their body does not name are dropped, and the nodes numbered anew.
#![tactic(auto)]

ghost use Rattle.std.specs.Prelude.{◌≡◌, Bool, [], ◌∷◌, ◌+◌, ◌*◌, ◌-◌, ◌<◌, ◌≤◌, length, take, drop};
ghost use Rattle.rules.specs.Bytes.{write_at};
ghost use Rattle.rules.specs.Layout.{nodes, edition};
ghost use Rattle.rules.specs.Accepted.{Accepted};
ghost use Rattle.rules.specs.Node.{IsNode};
ghost use Rattle.rules.specs.Scope.{mark as marked};
ghost use Rattle.rules.specs.Shaped.{Shaped};
ghost use Rattle.written.specs.Table.{row_bytes, rows_bytes, block_of, blocks_from, blocks_for};
ghost use Rattle.rewritten.specs.Rewritten.{tidied, tidying};
ghost use Rattle.rewritten.specs.TidyCall.{lent_for, tidy_call, tidying_call};
ghost use Rattle.tidy.specs.Sweep.{sweep as swept, sweep_by, Roomy, Stored};
ghost use Rattle.tidy.specs.Settle.{staying, renumber};
ghost use Rattle.tidy.specs.Record.{new_field, new_row, new_rows, row_from, rows_from, Inside};
ghost use Rattle.tidy.specs.Numbering.{Numbering};

use cells::{put, put32};
use fields::{child_a, child_b, child_c};
use format::check_sum;
use kinds::either;
use rewritten::Untidied;
use rules::Node;
use table::node;
use verdict::judge;
use written::TableSize;

// A variable names its binder.
fn mark(used: &mut [u8], binder: usize)
    ensures { used.new ≡ marked used.old binder }
{
    if binder < used.len() {
        used[binder] = 1;
    }
}

// A field of node i that holds m, walked if it is for a child: its list stands before a place, from where the answer says.
#[cycle(limb_sweep_sweep_let)]
fn limb(
    p: &&[u8],
    used: &mut [u8],
    names: &mut [u16],
    i: usize,
    at: usize,
    yes: bool,
    m: usize,
) -> usize
    requires { Shaped p.now.now × (i < nodes p.now.now) × Roomy (sweep_by p.now.now i yes m used.old) at used.old names.old }
    ensures { Stored (sweep_by p.now.now i yes m used.old) at result used.new names.old names.new }
{
    if !yes {
        return at;
    }
    if m >= i {
        return at;
    }
    sweep(p, used, names, m, at)
}

// Let i: its body, and its definition where the body names it.
#[cycle(limb_sweep_sweep_let)]
fn sweep_let(p: &&[u8], used: &mut [u8], names: &mut [u16], i: usize, at: usize, n: Node) -> usize
    requires { Shaped p.now.now × (i < nodes p.now.now) × (n.kind ≡ 5) × IsNode p.now.now i n × Roomy (swept p.now.now i used.old) at used.old names.old }
    ensures { Stored (swept p.now.now i used.old) at result used.new names.old names.new }
{
    used[i] = 0;
    let body = limb(p, used, names, i, at - 1, true, n.b);
    if used[i] == 1 {
        names[at - 1] = i as u16;
        return limb(p, used, names, i, body, true, n.a);
    }
    names[at - 1] = (1024 + i) as u16;
    body
}

// Node i: the nodes below it that stay and itself, children first in field order, stand before a place; from where, the answer says.
#[cycle(limb_sweep_sweep_let)]
fn sweep(p: &&[u8], used: &mut [u8], names: &mut [u16], i: usize, at: usize) -> usize
    requires { Shaped p.now.now × (i < nodes p.now.now) × Roomy (swept p.now.now i used.old) at used.old names.old }
    ensures { Stored (swept p.now.now i used.old) at result used.new names.old names.new }
{
    let n = node(*p, i);
    let k = n.kind;
    if k == 5 {
        return sweep_let(p, used, names, i, at, n);
    }
    names[at - 1] = i as u16;
    if k == 16 {
        mark(used, n.a);
        return at - 1;
    }
    let in_a = child_a(k);
    let in_b = child_b(k);
    let in_c = child_c(k);
    let third = limb(p, used, names, i, at - 1, in_c, n.c);
    let second = limb(p, used, names, i, third, in_b, n.b);
    limb(p, used, names, i, second, in_a, n.a)
}

// New numbers, from the list that a walk left behind a place: how many nodes stay.
fn settle(names: &[u16], from: usize, order: &mut [u16], new: &mut [u16; 1024]) -> usize
    requires { (from ≤ length names.now) × (length names.now ≤ 1008) × (length names.now - from ≤ length order.old) }
    ensures { (result ≡ length (staying (drop from names.now))) × (order.new ≡ write_at order.old 0 (staying (drop from names.now))) × (new.new ≡ renumber (drop from names.now) 0 new.old) }
{
    let mut m: usize = 0;
    let mut last: usize = 0;
    for k in from..names.len() {
        let e = names[k];
        let n = usize::from(e % 1024);
        if e < 1024 {
            order[m] = e;
            new[n] = m as u16;
            last = m;
            m += 1;
        } else {
            new[n] = last as u16;
        }
    }
    m
}

// A field: the new number of what it names.
fn moved(new: &[u16; 1024], yes: bool, x: usize) -> usize
    ensures { result ≡ new_field new.now yes x }
{
    if yes {
        if x < 1024 {
            return usize::from(new[x]);
        }
    }
    x
}

// The new record of old node o.
fn moved_row(p: &[u8], new: &[u16; 1024], o: usize) -> Node
    requires { Shaped p.now × (o < nodes p.now) }
    ensures { result ≡ new_row p.now new.now o }
{
    let n = node(p, o);
    let k = n.kind;
    Node {
        kind: k,
        ty: n.ty,
        a: moved(new, either(child_a(k), k == 16), n.a),
        b: moved(new, child_b(k), n.b),
        c: moved(new, either(child_c(k), k == 10), n.c),
        word: n.word,
    }
}

// A record's 12 bytes at a place.
pub fn put_row(room: &mut [u8], at: usize, n: Node)
    requires { at + 12 ≤ length room.old }
    ensures { room.new ≡ write_at room.old at (row_bytes n) }
{
    room[at] = n.kind;
    room[at + 1] = n.ty;
    put(room, at + 2, n.a as u64, 2);
    put(room, at + 4, n.b as u64, 2);
    put(room, at + 6, n.c as u64, 2);
    put32(room, at + 8, n.word);
}

// The record of new node k; zeros behind the last.
fn row_at(p: &[u8], new: &[u16; 1024], order: &[u16], count: usize, k: usize) -> Node
    requires { Shaped p.now × (count ≤ length order.now) × Inside (nodes p.now) count order.now }
    ensures { result ≡ row_from (new_rows p.now new.now (take count order.now)) k }
{
    if k < count {
        return moved_row(p, new, usize::from(order[k]));
    }
    Node {
        kind: 0,
        ty: 0,
        a: 0,
        b: 0,
        c: 0,
        word: 0,
    }
}

// The 42 records of a block, from a record on.
fn put_rows(
    p: &[u8],
    new: &[u16; 1024],
    order: &[u16],
    count: usize,
    room: &mut [u8],
    at: usize,
    first: usize,
)
    requires { Shaped p.now × (count ≤ length order.now) × Inside (nodes p.now) count order.now × (at + 504 ≤ length room.old) × (first ≤ 1008) }
    ensures { room.new ≡ write_at room.old at (rows_from 42 (new_rows p.now new.now (take count order.now)) first) }
{
    for r in 0..42 {
        let n = row_at(p, new, order, count, first + r);
        put_row(room, at + 12 * r, n);
    }
}

// Block j: its number, the count of blocks and the edition, its records, and the check.
fn put_block(
    p: &[u8],
    new: &[u16; 1024],
    order: &[u16],
    count: usize,
    room: &mut [u8],
    blocks: usize,
    j: usize,
)
    requires { Shaped p.now × (4 ≤ length p.now) × (count ≤ length order.now) × Inside (nodes p.now) count order.now × (512 * j + 512 ≤ length room.old) × (blocks ≤ 24) × (j < 24) }
    ensures { room.new ≡ write_at room.old (512 * j) (block_of (edition p.now) blocks j (rows_from 42 (new_rows p.now new.now (take count order.now)) (42 * j))) }
{
    let at = 512 * j;
    put(room, at, j as u64, 2);
    room[at + 2] = blocks as u8;
    room[at + 3] = p[3];
    put_rows(p, new, order, count, room, at + 4, 42 * j);
    let sum = check_sum(room, at);
    put32(room, at + 508, sum);
}

// All blocks.
pub fn put_blocks(p: &[u8], new: &[u16; 1024], order: &[u16], count: usize, room: &mut [u8])
    requires { Shaped p.now × (4 ≤ length p.now) × (count ≤ length order.now) × Inside (nodes p.now) count order.now × (count ≤ 1008) × (512 * blocks_for count ≤ length room.old) }
    ensures { room.new ≡ write_at room.old 0 (blocks_from (blocks_for count) (edition p.now) (blocks_for count) 0 (rows_bytes (new_rows p.now new.now (take count order.now)))) }
{
    let blocks = (count + 41) / 42;
    for j in 0..blocks {
        put_block(p, new, order, count, room, blocks, j);
    }
}

// An accepted program numbered anew: for each new node its old one, and by old node the new number; how many there are. (Arrays of the largest size:
// no call has a heap.)
fn number(p: &[u8], order: &mut [u16], new: &mut [u16; 1024], count: usize) -> usize
    requires { Accepted p.now × (count ≡ nodes p.now) × (count ≤ length order.old) × (length new.old ≡ 1024) }
    ensures { Numbering p.now order.old order.new new.new result }
{
    let mut used: [u8; 1008] = [0; 1008];
    let mut names: [u16; 1008] = [0; 1008];
    let from = sweep(&p, &mut used, &mut names, count - 1, 1008);
    settle(&names, from, order, new)
}

// The tidied program in the room's first blocks, if the room is as long as the old program.
fn tidy_accepted(p: &[u8], room: &mut [u8], count: usize) -> Result<TableSize, Untidied>
    requires { Accepted p.now × (count ≡ nodes p.now) }
    ensures { (result ≡ (lent_for p.now (length p.now) room.old (tidied p.now)).answer) × (room.new ≡ (lent_for p.now (length p.now) room.old (tidied p.now)).room) }
{
    if room.len() < p.len() {
        return Err(Untidied::RoomShort);
    }
    let mut order: [u16; 1008] = [0; 1008];
    let mut new: [u16; 1024] = [0; 1024];
    let left = number(p, &mut order, &mut new, count);
    put_blocks(p, &new, &order, left, room);
    Ok(TableSize {
        nodes: left as u32,
        bytes: (512 * ((left + 41) / 42)) as u32,
    })
}

// Tidy a program: the room's first blocks become the tidied program, and the rest is left. A refusal leaves the room as before.
pub fn tidy(program: &[u8], room: &mut [u8]) -> Result<TableSize, Untidied>
    ensures { (result ≡ (tidy_call program.now room.old).answer) × (room.new ≡ (tidy_call program.now room.old).room) }
{
    let found = judge(program)?;
    tidy_accepted(program, room, found.count)
}

// The pairing of an accepted program, if the room has an entry for each old node.
fn pair_accepted(p: &[u8], entries: &mut [u16], count: usize) -> Result<TableSize, Untidied>
    requires { Accepted p.now × (count ≡ nodes p.now) }
    ensures { (result ≡ (lent_for p.now (nodes p.now) entries.old (tidying p.now)).answer) × (entries.new ≡ (lent_for p.now (nodes p.now) entries.old (tidying p.now)).room) }
{
    if entries.len() < count {
        return Err(Untidied::RoomShort);
    }
    let mut new: [u16; 1024] = [0; 1024];
    let left = number(p, entries, &mut new, count);
    Ok(TableSize {
        nodes: left as u32,
        bytes: (512 * ((left + 41) / 42)) as u32,
    })
}

// The pairing in which a program is tidied: for each new node its old one, in the first entries of a room that has one for each old node or more.
// The answer is tidy's; a refusal leaves the room as before.
pub fn pairing_of(program: &[u8], entries: &mut [u16]) -> Result<TableSize, Untidied>
    ensures { (result ≡ (tidying_call program.now entries.old).answer) × (entries.new ≡ (tidying_call program.now entries.old).room) }
{
    let found = judge(program)?;
    pair_accepted(program, entries, found.count)
}
