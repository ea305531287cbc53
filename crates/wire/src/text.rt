// A line that is put together in a lent array of 64 bytes, from its start.
ghost use Rattle.std.specs.Prelude.{◌+◌, ◌≤◌, ◌≡◌, ◌++◌, length, take};
ghost use Rattle.wire.specs.Text.{Put, decimal, field};

// Puts text at index `at` of line, and answers the index after it.
pub fn put(text: &[u8], line: &mut [u8], at: usize) -> usize
    requires { at + length text.now ≤ length line.old }
    ensures { Put at text.now line.old line.new result }
{
    let end = at + text.len();
    line[at..end].copy_from_slice(text);
    end
}

// Puts n in decimal at index `at` of line, and answers the index after it: at most 10 further.
pub fn put_number(n: u32, line: &mut [u8; 64], at: usize) -> usize
    requires { at + 10 ≤ 64 }
    ensures put { Put at (decimal n) line.old line.new result }
    ensures upper_bound { result ≤ at + 10 }
    ensures line_len { length line.new ≡ 64 }
{
    let mut digits = [0u8; 20];
    let k = io::decimal(n as u64, &mut digits);
    put(&digits[..k], line, at)
}

// Puts n in decimal and the byte `end` at index `at` of line, and answers the index after them: at most 11 further.
pub fn put_field(n: u32, end: u8, line: &mut [u8; 64], at: usize) -> usize
    requires { at + 11 ≤ 64 }
    ensures put { Put at (field n end) line.old line.new result }
    ensures upper_bound { result ≤ at + 11 }
    ensures line_len { length line.new ≡ 64 }
{
    let here = put_number(n, line, at);
    line[here] = end;
    here + 1
}

// The same of a number of 16 bits: at most 6 further.
pub(crate) fn put_short(n: u16, end: u8, line: &mut [u8; 64], at: usize) -> usize
    requires { at + 6 ≤ 64 }
    ensures put { Put at (field n end) line.old line.new result }
    ensures upper_bound { result ≤ at + 6 }
    ensures line_len { length line.new ≡ 64 }
{
    let mut digits = [0u8; 20];
    let k = io::decimal(n as u64, &mut digits);
    let here = put(&digits[..k], line, at);
    line[here] = end;
    here + 1
}
