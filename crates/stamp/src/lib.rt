// The sum of a program's checks, by which a state knows its program.
#![tactic(auto)]

ghost use Rattle.std.specs.Prelude.{◌≡◌, ◌%◌, ◌≤◌, length};
ghost use Rattle.rules.specs.Layout.{checks_of, sum_in, header_length};

use table::u32_at;

// The sum of the checks of all blocks, as they stand in them; of an accepted program it is below 2 to the 32nd.
pub fn checks_of(p: &[u8]) -> u32
    ensures { result ≡ checks_of p.now % 4294967296 }
{
    let count = p.len() / 512;
    let mut sum: u32 = 0;
    for j in 0..count {
        sum = std::num::wrapping_add_u32(sum, u32_at(p, 512 * j + 508));
    }
    sum
}

// The sum that a state carries.
pub fn sum_in(st: &[u8]) -> u32
    requires { header_length ≤ length st.now }
    ensures { result ≡ sum_in st.now }
{
    u32_at(st, 4)
}
