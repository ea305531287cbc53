// Types and values in words.
ghost use Rattle.std.specs.Prelude.{◌+◌, ◌≤◌, length};
ghost use Rattle.rules.specs.Words.{signed};
ghost use Rattle.lines.specs.Print.{plain_type, type_words, integer, plain_words, present_words, value_words};
ghost use Rattle.lines.specs.Pen.{Puts};

use crate::pen::Pen;
use rules::Value;

impl Pen<'_> {
    // A plain type.
    fn plain_type(&mut self, t: u8)
        requires { self.old.at + 4 ≤ length self.old.line.now }
        ensures puts { Puts self.old (plain_type t) self.new }
        ensures upper_bound { self.new.at ≤ self.old.at + 4 }
    {
        if t == 1 {
            return self.word(b"unit");
        }
        if t == 2 {
            return self.word(b"bool");
        }
        self.word(b"int");
    }

    // A type.
    pub(crate) fn type_words(&mut self, t: u8)
        requires { self.old.at + 10 ≤ length self.old.line.now }
        ensures puts { Puts self.old (type_words t) self.new }
        ensures upper_bound { self.new.at ≤ self.old.at + 10 }
    {
        if t < 5 {
            return self.plain_type(t);
        }
        self.word(b"maybe ");
        self.plain_type(t - 4);
    }

    // The integer of a word.
    fn signed_words(&mut self, w: u32)
        requires { self.old.at + 11 ≤ length self.old.line.now }
        ensures puts { Puts self.old (integer (signed w)) self.new }
        ensures upper_bound { self.new.at ≤ self.old.at + 11 }
    {
        if w < 2147483648 {
            return self.number(w);
        }
        self.word(b"-");
        self.number(4294967295 - w + 1);
    }

    // A plain value.
    fn plain_words(&mut self, t: u8, w: u32)
        requires { self.old.at + 11 ≤ length self.old.line.now }
        ensures puts { Puts self.old (plain_words t w) self.new }
        ensures upper_bound { self.new.at ≤ self.old.at + 11 }
    {
        if t == 1 {
            return self.word(b"unit");
        }
        if t == 2 {
            if w == 0 {
                return self.word(b"false");
            }
            return self.word(b"true");
        }
        self.signed_words(w);
    }

    // A present value.
    fn some_words(&mut self, t: u8, w: u32)
        requires { self.old.at + 16 ≤ length self.old.line.now }
        ensures puts { Puts self.old (present_words t w) self.new }
        ensures upper_bound { self.new.at ≤ self.old.at + 16 }
    {
        self.word(b"some ");
        self.plain_words(t.saturating_sub(4), w);
    }

    // A value.
    pub(crate) fn value_words(&mut self, v: Value)
        requires { self.old.at + 16 ≤ length self.old.line.now }
        ensures puts { Puts self.old (value_words v) self.new }
        ensures upper_bound { self.new.at ≤ self.old.at + 16 }
    {
        match v {
            Value::Plain(t, w) => self.plain_words(t, w),
            Value::Absent(_) => self.word(b"none"),
            Value::Present(t, w) => self.some_words(t, w),
        }
    }
}
