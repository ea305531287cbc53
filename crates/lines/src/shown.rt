// The line of a watched step (document 02, l): the step's own, and behind it what the listed nodes gave.
ghost use Rattle.std.specs.Prelude.{◌+◌, ◌*◌, ◌≤◌, ◌≡◌, length, take};
ghost use Rattle.io.specs.Counts.{IsPrefixLen};
ghost use Rattle.lines.specs.Shown.{entry_words, row_words, step_words, shown_line};
ghost use Rattle.lines.specs.Pen.{Puts};

use crate::pen::Pen;
use rules::Value;

// The longest line: 38 bytes of the step, 17 for each of eight entries, and its end.
const LONGEST: usize = 175;

impl Pen<'_> {
    // An entry of a row, its 8 bytes as a number, behind a space: - for 0, where the evaluation did not come to the node.
    fn entry_words(&mut self, m: u64)
        requires { self.old.at + 17 ≤ length self.old.line.now }
        ensures puts { Puts self.old (entry_words m) self.new }
        ensures upper_bound { self.new.at ≤ self.old.at + 17 }
    {
        if m == 0 {
            return self.word(b" -");
        }
        self.word(b" ");
        self.value_words(values::unpack(m));
    }

    // The first entries of a row, one behind the other.
    fn row_words(&mut self, row: &[u8; 64], entries: usize)
        requires { (entries ≤ 8) × (self.old.at + 17 * entries ≤ length self.old.line.now) }
        ensures puts { Puts self.old (row_words row.now entries) self.new }
        ensures upper_bound { self.new.at ≤ self.old.at + 17 * entries }
    {
        for j in 0..entries {
            let m = cells::u64_at(row, 8 * j);
            self.entry_words(m);
        }
    }

    // The step's part of the line: time, value, work.
    fn step_words(&mut self, time: u32, v: Value, work: u32)
        requires { self.old.at + 38 ≤ length self.old.line.now }
        ensures puts { Puts self.old (step_words time v work) self.new }
        ensures upper_bound { self.new.at ≤ self.old.at + 38 }
    {
        self.field(time, b' ');
        self.value_words(v);
        self.word(b" ");
        self.number(work);
    }
}

// The line of a watched step, with the first entries of its row.
pub fn shown_line(
    time: u32,
    v: Value,
    work: u32,
    row: &[u8; 64],
    entries: usize,
    line: &mut [u8; LONGEST],
) -> usize
    requires { entries ≤ 8 }
    ensures prefix_len { IsPrefixLen result line.new }
    ensures line_after { take result line.new ≡ shown_line time v work row.now entries }
{
    let mut pen = Pen { line, at: 0 };
    pen.step_words(time, v, work);
    pen.row_words(row, entries);
    pen.word(b"\n");
    pen.at
}
