// Codes 1-4: the program's length, each block's check, number and count, each record.
#![tactic(auto)]

ghost use Rattle.std.specs.Prelude.{◌≡◌, Bool, false, suc, ◌+◌, ◌*◌, ◌≤◌, ◌<◌, length, take, drop};
ghost use Rattle.rules.specs.Bytes.{◌or◌, u64_at, first};
ghost use Rattle.rules.specs.Values.{is_type};
ghost use Rattle.rules.specs.Layout.{blocks, records, nodes, kind_at};
ghost use Rattle.rules.specs.Format.{length_wrong, check_of, sum_wrong, number_wrong, type_field_wrong, node_wrong, is_zero, may_end, after_end, record_wrong};
ghost use Rattle.kinds.specs.Rows.{type_field_in, a_in};
ghost use Rattle.format.specs.ByRow.{left_out, row_wrong};

use kinds::{a_in, both, either, is_child, named_in, row_of, type_field_in};
use rules::TypeField;
use table::{node_at, u16_at, u32_at};
use values::{is_maybe, is_plain, value_fits};

// Code 1: length 0, above 12,288 or not whole blocks.
pub fn length_wrong(p: &[u8]) -> bool
    ensures { result ≡ length_wrong p.now }
{
    either(either(p.len() == 0, 12288 < p.len()), p.len() % 512 != 0)
}

// The check of the block that starts at a place: the sum of (i+1) times byte i for i = 0..507, worked out as the storage board does. The block
// comes last byte first, from byte 507 down to byte 0; one running addition takes each byte, the other takes the first one's sum after it, so
// that byte i is in i+1 of the sums that are added. No product.
pub fn check_sum(p: &[u8], at: usize) -> u32
    requires { at + 508 ≤ length p.now }
    ensures { result ≡ check_of (take 508 (drop at p.now)) }
{
    let mut bytes: u32 = 0;
    let mut sum: u32 = 0;
    for i in (0..508).rev() {
        bytes += u32::from(p[at + i]);
        sum += bytes;
    }
    sum
}

// Code 2 at block j: its check is not that sum.
fn sum_wrong(p: &[u8], j: usize) -> bool
    requires { j < blocks p.now }
    ensures { result ≡ sum_wrong p.now j }
{
    let at = 512 * j;
    u32_at(p, at + 508) != check_sum(p, at)
}

// The first block whose check is wrong.
pub fn first_sum(p: &[u8]) -> Option<u32>
    requires { length_wrong p.now ≡ false }
    ensures { result ≡ first (sum_wrong p.now) (blocks p.now) }
{
    let count = p.len() / 512;
    for j in 0..count {
        if sum_wrong(p, j) {
            return Some(j as u32);
        }
    }
    None
}

// Code 3 at block j: its number is not j, or its count not that of the blocks; or its edition is not block 0's, or above 1.
fn number_wrong(p: &[u8], j: usize) -> bool
    requires { j < blocks p.now }
    ensures { result ≡ number_wrong p.now j }
{
    let at = 512 * j;
    let count = p[at + 2];
    let edition = p[at + 3];
    let first = p[3];
    !both(
        both(
            both(u16_at(p, at) == j, count as usize == p.len() / 512),
            edition == first,
        ),
        edition <= 1,
    )
}

// The first block whose number, count or edition is wrong.
pub fn first_number(p: &[u8]) -> Option<u32>
    requires { length_wrong p.now ≡ false }
    ensures { result ≡ first (number_wrong p.now) (blocks p.now) }
{
    let count = p.len() / 512;
    for j in 0..count {
        if number_wrong(p, j) {
            return Some(j as u32);
        }
    }
    None
}

// The types are the plain ones and maybe of these.
pub fn is_type(t: u8) -> bool
    ensures { result ≡ is_type t }
{
    either(is_plain(t), is_maybe(t))
}

// The type is as named, and with it the word: zero but in a value. A value's field a names a child or is zero.
fn type_wrong(row: u32, t: u8, a: u64, b: u64, w: u32) -> bool
    ensures { result ≡ (type_field_wrong (type_field_in row) t b w or left_out (type_field_in row) (a_in row) a) }
{
    let f = type_field_in(row);
    match f {
        TypeField::NoType => !both(t == 0, w == 0),
        TypeField::AnyType => !both(is_type(t), w == 0),
        TypeField::PlainType => !both(is_plain(t), w == 0),
        TypeField::ValueType => {
            let fits = both(is_type(t), value_fits(t, b, w as u64));
            !both(fits, either(is_child(a_in(row)), a == 0))
        }
    }
}

// A record is not as its kind's row says: a field not named for its kind is zero, so that none of the bits of a, b and c is set but those
// that the row names.
fn row_wrong(row: u32, low: u64, word: u32) -> bool
    ensures { result ≡ row_wrong row low word }
{
    let rest = low / 65536 >> named_in(row);
    let ty = type_wrong(
        row,
        (low / 256 % 256) as u8,
        low / 65536 % 65536,
        low / 4294967296 % 65536,
        word,
    );
    either(rest != 0, ty)
}

// The first eight bytes of a record: kind, type, a, b and c.
fn low_at(p: &[u8], at: usize) -> u64
    requires { at + 8 ≤ length p.now }
    ensures { result ≡ u64_at p.now at }
{
    u32_at(p, at) as u64 + 4294967296 * (u32_at(p, at + 4) as u64)
}

// A record is not as the paper's table says.
fn node_wrong(p: &[u8], r: usize) -> bool
    requires { (r < records p.now) × (r < 1008) }
    ensures { result ≡ node_wrong p.now r }
{
    let at = node_at(p, r);
    let low = low_at(p, at);
    let row = row_of((low % 256) as u8);
    either(row == 0, row_wrong(row, low, u32_at(p, at + 8)))
}

// All 12 bytes of a record are zero.
fn is_zero(p: &[u8], r: usize) -> bool
    requires { (r < records p.now) × (r < 1008) }
    ensures { result ≡ is_zero p.now r }
{
    let at = node_at(p, r);
    both(low_at(p, at) == 0, u32_at(p, at + 8) == 0)
}

// Kind 0 stands only in the last block, not as its first record.
fn may_end(p: &[u8], r: usize) -> bool
    requires { r < records p.now }
    ensures { result ≡ may_end p.now r }
{
    42 * (p.len() / 512 - 1) < r
}

// The kind of record r.
fn kind_at(p: &[u8], r: usize) -> u8
    requires { (r < records p.now) × (r < 1008) }
    ensures { result ≡ kind_at p.now r }
{
    let at = node_at(p, r);
    p[at]
}

// The record before is of kind 0.
fn after_end(p: &[u8], r: usize) -> bool
    requires { (r < records p.now) × (r < 1008) }
    ensures { result ≡ after_end p.now r }
{
    if r == 0 {
        return false;
    }
    kind_at(p, r - 1) == 0
}

// Code 4 at record r. A record of kind 0, and every later one, is all zero.
fn record_wrong(p: &[u8], r: usize) -> bool
    requires { (r < records p.now) × (r < 1008) }
    ensures { result ≡ record_wrong p.now r }
{
    if kind_at(p, r) == 0 {
        return !both(may_end(p, r), is_zero(p, r));
    }
    either(after_end(p, r), node_wrong(p, r))
}

// The first record that is wrong.
pub fn first_record(p: &[u8]) -> Option<u32>
    requires { length_wrong p.now ≡ false }
    ensures { result ≡ first (record_wrong p.now) (records p.now) }
{
    let count = 42 * (p.len() / 512);
    for r in 0..count {
        if record_wrong(p, r) {
            return Some(r as u32);
        }
    }
    None
}

// How many nodes there are: the records before the first of kind 0.
pub fn count_nodes(p: &[u8]) -> usize
    requires { length_wrong p.now ≡ false }
    ensures { (result ≡ nodes p.now) × (result ≤ 1008) }
{
    let count = 42 * (p.len() / 512);
    for r in 0..count {
        if kind_at(p, r) == 0 {
            return r;
        }
    }
    count
}
