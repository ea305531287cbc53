// What watchrun decides by numbers: how much of the blocks is taken, how much is read for a turn, whether that is a record, the place of a refusal,
// and the work in all.
#![tactic(auto)]

ghost use Rattle.std.specs.Prelude.{◌≡◌, ◌+◌, ◌≤◌, ◌<◌, length};
ghost use Rattle.turns.specs.Decided.{blocks_taken, blocks_left, wanted as wantedAfter, is_record, placed_at};

use rules::Refusal;

const BLOCK: usize = 512;

const RECORD: usize = 40;

const MOST_RECORDS: u32 = 4096;

// How many blocks block 0 says, if 1 to 24, else just one: byte 2, where byte 3 is an edition, 0 or 1.
fn blocks_taken(block: &[u8]) -> usize
    requires { 512 ≤ length block.now }
    ensures { (result ≡ blocks_taken block.now) × (1 ≤ result) × (result ≤ 24) }
{
    if block[3] > 1 {
        return 1;
    }
    let n = block[2] as usize;
    if n < 1 {
        return 1;
    }
    if n > 24 {
        return 1;
    }
    n
}

// How many bytes of the blocks are still to be read after so many of block 0.
pub fn blocks_left(program: &[u8], got: usize) -> usize
    requires { 512 ≤ length program.now }
    ensures { (result ≡ blocks_left program.now got) × (result ≤ 11776) }
{
    if got < BLOCK {
        return 0;
    }
    BLOCK * (blocks_taken(program) - 1)
}

// How many bytes to read after so many steps.
pub fn wanted(steps: u32) -> usize
    ensures { (result ≡ wantedAfter steps) × (result ≤ 40) }
{
    if steps < MOST_RECORDS {
        return RECORD;
    }
    1
}

// The place of a refused record is the number of steps printed.
pub fn placed(steps: u32, r: Refusal) -> Refusal
    ensures { result ≡ placed_at steps r }
{
    match r {
        Refusal::InputFault(_) => Refusal::InputFault(steps),
        Refusal::TimeBack(_) => Refusal::TimeBack(steps),
        _ => r,
    }
}

// Whether so many bytes after so many steps are a record to take: it is whole, and no 4,097th.
pub fn is_record(got: usize, steps: u32) -> bool
    ensures { result ≡ is_record got steps }
{
    steps < MOST_RECORDS && got >= RECORD
}

// The work of all steps, after a step of so much.
pub fn in_all(total: u32, work: u32) -> u32
    requires { total + work < 4294967296 }
    ensures { result ≡ total + work }
{
    total + work
}
