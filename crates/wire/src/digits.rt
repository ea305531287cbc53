// Bytes as two small hex digits each.
ghost use Rattle.std.specs.Prelude.{◌*◌, ◌/◌, ◌%◌, ◌≤◌, ◌<◌, ◌≡◌, length, take};
ghost use Rattle.io.specs.Counts.{IsPrefixLen};
ghost use Rattle.io.specs.Digits.{hex_digit_ascii};
ghost use Rattle.wire.specs.Text.{hexes};

// The digit of a number below 16.
fn digit(d: u8) -> u8
    requires { d < 16 }
    ensures { result ≡ hex_digit_ascii d }
{
    if d < 10 { 48 + d } else { 87 + d }
}

// Puts the digits of all of s at the start of text, and answers how many there are.
pub fn hex(s: &[u8], text: &mut [u8]) -> usize
    requires { 2 * length s.now ≤ length text.old }
    ensures prefix_len { IsPrefixLen result text.new }
    ensures text_after { take result text.new ≡ hexes s.now }
{
    for (i, &b) in s.iter().enumerate() {
        text[2 * i] = digit(b / 16);
        text[2 * i + 1] = digit(b % 16);
    }
    2 * s.len()
}
