// A line that words are put on, one behind the other: each method puts its words where the pen stands, and the pen stands behind them.
ghost use Rattle.std.specs.Prelude.{◌+◌, ◌≤◌, length};
ghost use Rattle.wire.specs.Text.{decimal, field};
ghost use Rattle.lines.specs.Pen.{Puts};

// A line, and the index of what is put next.
#[derive(Drop)]
pub(crate) struct Pen<'a> {
    pub(crate) line: &'a mut [u8],
    pub(crate) at: usize,
}

impl Pen<'_> {
    // A text.
    pub(crate) fn word(&mut self, text: &[u8])
        requires { self.old.at + length text.now ≤ length self.old.line.now }
        ensures { Puts self.old text.now self.new }
    {
        self.at = wire::put(text, self.line, self.at);
    }

    // A number in decimal.
    pub(crate) fn number(&mut self, n: u32)
        requires { self.old.at + 10 ≤ length self.old.line.now }
        ensures puts { Puts self.old (decimal n) self.new }
        ensures upper_bound { self.new.at ≤ self.old.at + 10 }
    {
        let mut digits = [0u8; 20];
        let k = io::decimal(n as u64, &mut digits);
        self.word(&digits[..k]);
    }

    // A number in decimal, and the byte that ends it.
    pub(crate) fn field(&mut self, n: u32, end: u8)
        requires { self.old.at + 11 ≤ length self.old.line.now }
        ensures puts { Puts self.old (field n end) self.new }
        ensures upper_bound { self.new.at ≤ self.old.at + 11 }
    {
        self.number(n);
        self.word(&[end]);
    }
}
