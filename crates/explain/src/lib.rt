// Why a program is not ready: the chain of the let that code 8 names, in a lent room of 1,008 node numbers.
#![tactic(auto)]

ghost use Rattle.std.specs.Prelude.{◌≡◌, Bool, [], ◌++◌, ◌+◌, ◌<◌, ◌≤◌, ◌-◌, length, take, replicate, if◌then◌else◌, Err};
ghost use Rattle.rules.specs.Bytes.{write_at};
ghost use Rattle.rules.specs.Layout.{nodes, no_next};
ghost use Rattle.rules.specs.Node.{IsNode};
ghost use Rattle.rules.specs.Shaped.{Shaped};
ghost use Rattle.rules.specs.Tree.{below};
ghost use Rattle.chains.specs.Chain.{a_field, b_field, c_field, enters, chain, chain_of};
ghost use Rattle.rules.specs.Calls.{program_verdict};
ghost use Rattle.chains.specs.Explain.{let_of, filled, explain_let, explain_at, explain_call};
ghost use Rattle.chains.specs.Explains.{IsLet};
ghost use Rattle.explain.specs.Tracing.{onward};

use chains::{Chain, NoChain};
use fields::{enters_a, enters_b, enters_c};
use kinds::both;
use rules::{Node, Refusal};
use table::node;
use verdict::judge;

// The chain that goes on by a field of node i that holds m, if the field is entered: stored from a place on, and how many entries it has.
#[cycle(part_parts_trace)]
fn part(p: &&[u8], room: &mut [u16], x: usize, i: usize, at: usize, yes: bool, m: usize) -> usize
    requires { Shaped p.now.now × (i < nodes p.now.now) × (at + i ≤ length room.old) × (length room.old ≤ 1008) }
    ensures { (result ≡ length (if yes then below i [] (chain p.now.now x) m else [])) × (room.new ≡ write_at room.old at (if yes then below i [] (chain p.now.now x) m else [])) }
{
    if !yes {
        return 0;
    }
    if m >= i {
        return 0;
    }
    trace(p, room, x, m, at)
}

// The same by the first of its three fields that goes on.
#[cycle(part_parts_trace)]
fn parts(p: &&[u8], room: &mut [u16], x: usize, i: usize, at: usize, n: Node) -> usize
    requires { Shaped p.now.now × (i < nodes p.now.now) × (at + i ≤ length room.old) × (length room.old ≤ 1008) × IsNode p.now.now i n }
    ensures { (result ≡ length (onward p.now.now x i)) × (room.new ≡ write_at room.old at (onward p.now.now x i)) }
{
    let k = n.kind;
    let a = part(p, room, x, i, at, enters_a(k), n.a);
    if a > 0 {
        return a;
    }
    let b = part(p, room, x, i, at, enters_b(k), n.b);
    if b > 0 {
        return b;
    }
    part(p, room, x, i, at, enters_c(k), n.c)
}

// The chain from node i down to the first use of x's variable, stored from a place on, and how many entries it has: none, and nothing stored,
// if there is no use.
#[cycle(part_parts_trace)]
fn trace(p: &&[u8], room: &mut [u16], x: usize, i: usize, at: usize) -> usize
    requires { Shaped p.now.now × (i < nodes p.now.now) × (at + i < length room.old) × (length room.old ≤ 1008) }
    ensures { (result ≡ length (chain p.now.now x i)) × (room.new ≡ write_at room.old at (chain p.now.now x i)) }
{
    let n = node(*p, i);
    if both(n.kind == 16, n.a == x) {
        room[at] = i as u16;
        return 1;
    }
    let found = parts(p, room, x, i, at + 1, n);
    if found == 0 {
        return 0;
    }
    room[at] = i as u16;
    found + 1
}

// The entries from a place on: 65535.
fn fill(room: &mut [u16], from: usize)
    requires { (from ≤ length room.old) × (length room.old ≤ 1008) }
    ensures { room.new ≡ take from room.old ++ replicate (length room.old - from) no_next }
{
    room[from..].fill(65535);
}

// The chain of let x in a room of 1,008 entries, and how many it has.
fn chain_of(p: &[u8], room: &mut [u16], x: usize) -> usize
    requires { Shaped p.now × IsLet p.now x × (length room.old ≡ 1008) }
    ensures { (result ≡ length (chain_of p.now x)) × (room.new ≡ filled (chain_of p.now x)) }
{
    let n = node(p, x);
    let found = trace(&p, room, x, n.a, 0);
    fill(room, found);
    found
}

// The let that a refusal names, if it is code 8.
fn let_of(r: Refusal) -> Option<u32>
    ensures { result ≡ let_of r }
{
    match r {
        Refusal::ProgramLength => None,
        Refusal::CheckSum(_) => None,
        Refusal::BlockNumber(_) => None,
        Refusal::RecordFault(_) => None,
        Refusal::ShapeFault(_) => None,
        Refusal::ScopeFault(_) => None,
        Refusal::TypeFault(_) => None,
        Refusal::NotReady(n) => Some(n),
        Refusal::StateFault => None,
        Refusal::RecordsLength => None,
        Refusal::OutputLength => None,
        Refusal::InputFault(_) => None,
        Refusal::TimeBack(_) => None,
        Refusal::OtherProgram => None,
    }
}

// A let to explain: code 26, or its chain.
fn explain_let(p: &[u8], room: &mut [u16], x: u32) -> Result<Chain, NoChain>
    requires { Shaped p.now × IsLet p.now x }
    ensures { (result ≡ (explain_let p.now room.old x).answer) × (room.new ≡ (explain_let p.now room.old x).room) }
{
    if room.len() != 1008 {
        return Err(NoChain::RoomLength);
    }
    let count = chain_of(p, room, x as usize);
    Ok(Chain {
        of: x,
        entries: count as u32,
    })
}

// A program that is refused: codes 1-7, or a let to explain.
fn explain_refused(p: &[u8], room: &mut [u16], r: Refusal) -> Result<Chain, NoChain>
    requires { program_verdict p.now ≡ Err r }
    ensures { (result ≡ (explain_at p.now room.old r (let_of r)).answer) × (room.new ≡ (explain_at p.now room.old r (let_of r)).room) }
{
    let x = let_of(r);
    match x {
        Some(n) => explain_let(p, room, n),
        None => Err(NoChain::Refused(r)),
    }
}

// Why a program is not ready: the let that code 8 names and its chain in a room of 1,008 node numbers, the entries after it 65535. A refusal
// leaves the room as before.
pub fn explain(program: &[u8], room: &mut [u16]) -> Result<Chain, NoChain>
    ensures { (result ≡ (explain_call program.now room.old).answer) × (room.new ≡ (explain_call program.now room.old).room) }
{
    match judge(program) {
        Ok(_) => Err(NoChain::NoLet),
        Err(r) => explain_refused(program, room, r),
    }
}
