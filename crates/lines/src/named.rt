// The line of the channels that a table names.
ghost use Rattle.std.specs.Prelude.{◌+◌, ◌≤◌, ◌≡◌, Bool, length, take};
ghost use Rattle.io.specs.Counts.{IsPrefixLen};
ghost use Rattle.lines.specs.Channels.{channel_word, channel_words, some_or_none, channels_line};
ghost use Rattle.lines.specs.Pen.{Puts};

use crate::pen::Pen;

impl Pen<'_> {
    // A channel's digit behind a space, where it is named.
    fn channel_word(&mut self, named: bool, digit: u8)
        requires { self.old.at + 2 ≤ length self.old.line.now }
        ensures puts { Puts self.old (channel_word named digit) self.new }
        ensures upper_bound { self.new.at ≤ self.old.at + 2 }
    {
        if named {
            return self.word(&[b' ', digit]);
        }
        self.word(b"");
    }

    // The digits of the channels whose bits are 1.
    fn channel_words(&mut self, bits: u8)
        requires { self.old.at + 16 ≤ length self.old.line.now }
        ensures puts { Puts self.old (channel_words bits) self.new }
        ensures upper_bound { self.new.at ≤ self.old.at + 16 }
    {
        self.channel_word(bits / 1 % 2 == 1, b'0');
        self.channel_word(bits / 2 % 2 == 1, b'1');
        self.channel_word(bits / 4 % 2 == 1, b'2');
        self.channel_word(bits / 8 % 2 == 1, b'3');
        self.channel_word(bits / 16 % 2 == 1, b'4');
        self.channel_word(bits / 32 % 2 == 1, b'5');
        self.channel_word(bits / 64 % 2 == 1, b'6');
        self.channel_word(bits / 128 % 2 == 1, b'7');
    }

    // The digits, or that there are none.
    fn some_or_none(&mut self, bits: u8)
        requires { self.old.at + 16 ≤ length self.old.line.now }
        ensures puts { Puts self.old (some_or_none bits) self.new }
        ensures upper_bound { self.new.at ≤ self.old.at + 16 }
    {
        if bits == 0 {
            return self.word(b" none");
        }
        self.channel_words(bits);
    }
}

// The line of the channels whose bits are 1: `channels 0 3 4`, or `channels none`.
pub fn channels_line(bits: u8, line: &mut [u8; 64]) -> usize
    ensures prefix_len { IsPrefixLen result line.new }
    ensures line_after { take result line.new ≡ channels_line bits }
{
    let mut pen = Pen { line, at: 0 };
    pen.word(b"channels");
    pen.some_or_none(bits);
    pen.word(b"\n");
    pen.at
}
