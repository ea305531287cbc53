// The reader's rows as blocks: names to numbers, rows to records, and the records 42 to a block.
#![tactic(auto)]

ghost use Rattle.std.specs.Prelude.{◌≡◌, ◌+◌, ◌*◌, ◌%◌, ◌≤◌, ◌<◌, length};
ghost use Rattle.rules.specs.Bytes.{write_at};
ghost use Rattle.written.specs.Table.{block_of};
ghost use Rattle.tidy.specs.Record.{row_from, rows_from};
ghost use Rattle.texts.specs.Resolved.{blocks_of};
ghost use Rattle.labels.specs.Noted.{named_by};
ghost use Rattle.sealing.specs.Scratch.{count_in, rows_in};
ghost use Rattle.sealing.specs.Found.{found_in, settled_in, records_in};

use cells::{put, put32};
use format::check_sum;
use labels::named;
use rules::Node;
use tidy::put_row;

// The number of the first row whose name at a column is the one between two numbers; 0 if there is none.
fn row_named(text: &[u8], rows: &[usize; 13118], column: usize, start: usize, end: usize) -> usize
    requires { (count_in rows.now ≤ 1008) × (column < 12) }
    ensures { result ≡ found_in (named_by text.now start end) text.now rows.now column }
{
    for j in 0..rows[1] {
        let at = 13 * j + 14 + column;
        if named(text, start, end) == named(text, rows[at], rows[at + 1]) {
            return j;
        }
    }
    0
}

// The lowest 8 bits of a number,
fn byte_of(x: usize) -> u8
    ensures { result ≡ x % 256 }
{
    (x % 256) as u8
}

// and the lowest 32.
fn word_of(x: usize) -> u32
    ensures { result ≡ x % 4294967296 }
{
    (x % 4294967296) as u32
}

// The node that row j's name is for, if the row is of a kind; else a number.
fn settled(
    text: &[u8],
    rows: &[usize; 13118],
    j: usize,
    kind: u8,
    column: usize,
    number: usize,
) -> usize
    requires { (count_in rows.now ≤ 1008) × (j < count_in rows.now) × (column < 12) }
    ensures { result ≡ settled_in text.now rows.now j kind column number }
{
    let at = 13 * j + 14;
    if byte_of(rows[at]) != kind {
        return number;
    }
    row_named(text, rows, column, rows[at + 10], rows[at + 11])
}

// The record of row j; zeros behind the last.
fn record_at(text: &[u8], rows: &[usize; 13118], j: usize) -> Node
    requires { count_in rows.now ≤ 1008 }
    ensures { result ≡ row_from (records_in text.now rows.now) j }
{
    if j < rows[1] {
        let at = 13 * j + 14;
        return Node {
            kind: byte_of(rows[at]),
            ty: byte_of(rows[at + 1]),
            a: settled(text, rows, j, 16, 6, rows[at + 2]),
            b: rows[at + 3],
            c: settled(text, rows, j, 10, 8, rows[at + 4]),
            word: word_of(rows[at + 5]),
        };
    }
    Node {
        kind: 0,
        ty: 0,
        a: 0,
        b: 0,
        c: 0,
        word: 0,
    }
}

// The 42 records of a block, from a record on.
fn put_rows(text: &[u8], rows: &[usize; 13118], room: &mut [u8], at: usize, first: usize)
    requires { (count_in rows.now ≤ 1008) × (at + 504 ≤ length room.old) × (first ≤ 1008) }
    ensures { room.new ≡ write_at room.old at (rows_from 42 (records_in text.now rows.now) first) }
{
    for r in 0..42 {
        let n = record_at(text, rows, first + r);
        put_row(room, at + 12 * r, n);
    }
}

// Block j: its number, the count of blocks and the edition, its records, and the check.
fn put_block(
    text: &[u8],
    rows: &[usize; 13118],
    edition: usize,
    room: &mut [u8],
    blocks: usize,
    j: usize,
)
    requires { (count_in rows.now ≤ 1008) × (edition < 256) × (512 * j + 512 ≤ length room.old) × (blocks ≤ 24) × (j < 24) }
    ensures { room.new ≡ write_at room.old (512 * j) (block_of edition blocks j (rows_from 42 (records_in text.now rows.now) (42 * j))) }
{
    let at = 512 * j;
    put(room, at, j as u64, 2);
    room[at + 2] = blocks as u8;
    room[at + 3] = byte_of(edition);
    put_rows(text, rows, room, at + 4, 42 * j);
    let sum = check_sum(room, at);
    put32(room, at + 508, sum);
}

// All blocks, at the room's front: their length.
pub fn put_blocks(text: &[u8], rows: &[usize; 13118], edition: usize, room: &mut [u8]) -> usize
    requires { (count_in rows.now ≤ 1008) × (edition < 256) × (12288 ≤ length room.old) }
    ensures { (result ≡ length (blocks_of edition (rows_in text.now rows.now))) × (room.new ≡ write_at room.old 0 (blocks_of edition (rows_in text.now rows.now))) }
{
    let blocks = (rows[1] + 41) / 42;
    for j in 0..blocks {
        put_block(text, rows, edition, room, blocks, j);
    }
    512 * blocks
}
