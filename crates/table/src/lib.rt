// The records of a program: the fields of a node, by value.
#![tactic(auto)]

ghost use Rattle.std.specs.Prelude.{◌≡◌, ◌+◌, ◌*◌, ◌%◌, ◌≤◌, ◌<◌, length};
ghost use Rattle.rules.specs.Bytes.{byte_at, u16_at, u32_at};
ghost use Rattle.rules.specs.Layout.{records, record_at, type_at};
ghost use Rattle.rules.specs.Node.{IsNode};

use rules::{NO_NEXT, Node};

// A next field that holds this number is its list's last.
pub const LAST: usize = NO_NEXT as usize;

// The number of 2 bytes at a position.
pub fn half_at(p: &[u8], at: usize) -> u16
    requires { at + 2 ≤ length p.now }
    ensures { result ≡ u16_at p.now at }
{
    u16::from_le_bytes([p[at], p[at + 1]])
}

// The same number as an index.
pub fn u16_at(p: &[u8], at: usize) -> usize
    requires { at + 2 ≤ length p.now }
    ensures { result ≡ u16_at p.now at }
{
    usize::from(half_at(p, at))
}

// The number of 4 bytes at a position.
pub fn u32_at(p: &[u8], at: usize) -> u32
    requires { at + 4 ≤ length p.now }
    ensures { result ≡ u32_at p.now at }
{
    u32::from_le_bytes([p[at], p[at + 1], p[at + 2], p[at + 3]])
}

// Where record i stands: a block of 512 bytes has 42 records of 12 and 8 bytes beside them.
pub fn record_at(p: &[u8], i: usize) -> usize
    requires { i < records p.now }
    ensures { (result ≡ record_at i) × (result + 12 ≤ length p.now) }
{
    12 * i + 8 * (i / 42) + 4
}

// Where node i stands, by a product in place of the division: below 1,008 both are the same.
pub fn node_at(p: &[u8], i: usize) -> usize
    requires { (i < records p.now) × (i < 1008) }
    ensures { (result ≡ record_at i) × (result + 12 ≤ length p.now) }
{
    12 * i + 8 * (i * 1561 / 65536) + 4
}

// The fields of the record at a position.
pub fn read(p: &[u8], at: usize) -> Node
    requires { at + 12 ≤ length p.now }
    ensures { (result.kind ≡ byte_at p.now at) × (result.ty ≡ byte_at p.now (at + 1)) × (result.a ≡ u16_at p.now (at + 2)) × (result.b ≡ u16_at p.now (at + 4)) × (result.c ≡ u16_at p.now (at + 6)) × (result.word ≡ u32_at p.now (at + 8)) }
{
    Node {
        kind: p[at],
        ty: p[at + 1],
        a: u16_at(p, at + 2),
        b: u16_at(p, at + 4),
        c: u16_at(p, at + 6),
        word: u32_at(p, at + 8),
    }
}

// The fields of node i.
pub fn node(p: &[u8], i: usize) -> Node
    requires { (i < records p.now) × (i < 1008) }
    ensures { IsNode p.now i result }
{
    let at = node_at(p, i);
    read(p, at)
}

// The type that record i declares; 0 where there is no such record.
pub fn declared(p: &[u8], i: usize) -> u8
    requires { length p.now % 512 ≡ 0 }
    ensures { result ≡ type_at p.now i }
{
    if i < p.len() / 512 * 42 {
        let at = record_at(p, i);
        p[at + 1]
    } else {
        0
    }
}
