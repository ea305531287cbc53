// The channels that the input nodes of a program name, a bit a channel. For any bytes: nothing is asked of the program.
#![tactic(auto)]

ghost use Rattle.std.specs.Prelude.{◌≡◌, ◌≤◌, ◌<◌};
ghost use Rattle.rules.specs.Layout.{records, kind_at, a_at, nodes};
ghost use Rattle.channels.specs.Named.{input_of, some_below, bit_of, named_channels};

use table::{record_at, u16_at};

// The kind of record r.
fn kind_at(p: &[u8], r: usize) -> u8
    requires { r < records p.now }
    ensures { result ≡ kind_at p.now r }
{
    let at = record_at(p, r);
    p[at]
}

// Its first field.
fn a_at(p: &[u8], r: usize) -> usize
    requires { r < records p.now }
    ensures { result ≡ a_at p.now r }
{
    let at = record_at(p, r);
    u16_at(p, at + 2)
}

// How many nodes there are: the records before the first of kind 0.
fn count_nodes(p: &[u8]) -> usize
    ensures { (result ≡ nodes p.now) × (result ≤ records p.now) }
{
    let count = 42 * (p.len() / 512);
    for r in 0..count {
        if kind_at(p, r) == 0 {
            return r;
        }
    }
    count
}

// Node i is an input node that names channel k.
fn is_input_of(p: &[u8], k: usize, i: usize) -> bool
    requires { i < records p.now }
    ensures { result ≡ input_of p.now k i }
{
    let is_input = kind_at(p, i) == 1;
    is_input && a_at(p, i) == k
}

// Some of the first n nodes is such a node.
fn names(p: &[u8], n: usize, k: usize) -> bool
    requires { n ≤ records p.now }
    ensures { result ≡ some_below (input_of p.now k) n }
{
    (0..n).any(|i| is_input_of(p, k, i))
}

// The bit of channel k.
#[tactic(auto, unfolding(crate::specs::Named::bit_of))]
fn bit(p: &[u8], n: usize, k: usize) -> u8
    requires { n ≤ records p.now }
    ensures { (result ≡ bit_of (some_below (input_of p.now k) n)) × (result ≤ 1) }
{
    u8::from(names(p, n, k))
}

// A bit a channel: that of channel k is 1 exactly where some input node names channel k. The sum is that of the definition named_channels.
pub fn named_channels(p: &[u8]) -> u8
    ensures { result ≡ named_channels p.now }
{
    let n = count_nodes(p);
    let low = bit(p, n, 0) + 2 * bit(p, n, 1) + 4 * bit(p, n, 2) + 8 * bit(p, n, 3);
    low + 16 * bit(p, n, 4) + 32 * bit(p, n, 5) + 64 * bit(p, n, 6) + 128 * bit(p, n, 7)
}
