// The letters of a printed text: bytes, words, names, numbers and values, put on a sheet, which is a room and the place of its next byte. What does
// not fit the room is counted and not written.
#![tactic(auto)]

ghost use Rattle.std.specs.Prelude.{◌≡◌, [], ◌∷◌, ◌<◌, ◌+◌, ◌-◌, ◌*◌, min, replicate};
ghost use Rattle.texts.specs.Spelling.{type_word};
ghost use Rattle.texts.specs.Numerals.{digits_f, decimal, signed_decimal};
ghost use Rattle.texts.specs.Printer.{plain_word, value_pieces};
ghost use Rattle.spell.specs.Vocabulary.{listed};
ghost use Rattle.letters.specs.Wrote.{Wrote, spread, maybe_words};
ghost use Rattle.letters.specs.Puts.{Puts};

use kinds::both;
use rules::{BOOL, INT};
use spell::{letter, size};

// No text is longer (crate retold has the theorem): a place counts no further.
const LONGEST: usize = 107868;

// The rows of the words (crate spell): types from one row on, and what stands in values.
const TYPES: usize = 30;

const UNIT: usize = 31;

const TRUE: usize = 38;

const FALSE: usize = 39;

const SOME: usize = 40;

const NONE: usize = 41;

// A room that a text is put into, and the place of its next byte.
#[derive(Drop)]
pub struct Sheet<'a> {
    pub room: &'a mut [u8],
    pub at: usize,
}

// How far in a line of a depth begins.
fn margin(depth: usize) -> usize
    ensures { result ≡ 2 * min depth 40 }
{
    2 * depth.min(40)
}

// A digit.
fn digit(n: usize) -> u8
    requires { n < 10 }
    ensures { result ≡ 48 + n }
{
    b'0' + n as u8
}

// A byte, if the room has the place; and the next place. (What is put byte by byte keeps the place out of memory: a Sheet's own would be read and
// written back for each.)
fn put_byte(room: &mut [u8], at: usize, b: u8) -> usize
    ensures { Wrote room.old at (b ∷ []) room.new result }
{
    if at >= LONGEST {
        return at;
    }
    if at < room.len() {
        room[at] = b;
        return at + 1;
    }
    at + 1
}

// A word of the form, by its row.
pub fn put_word(room: &mut [u8], at: usize, row: usize) -> usize
    requires { row < 44 }
    ensures { Wrote room.old at (listed row) room.new result }
{
    let mut to = at;
    for i in 0..size(row) {
        to = put_byte(room, to, letter(row, i + 1));
    }
    to
}

// So many spaces.
fn put_spaces(room: &mut [u8], at: usize, count: usize) -> usize
    ensures { Wrote room.old at (replicate count 32) room.new result }
{
    let mut to = at;
    for _ in 0..count {
        to = put_byte(room, to, b' ');
    }
    to
}

impl Sheet<'_> {
    // A byte, if the room has the place.
    pub fn put(&mut self, b: u8)
        ensures { Puts self.old (b ∷ []) self.new }
    {
        self.at = put_byte(self.room, self.at, b);
    }

    // A word of the form, by its row.
    pub fn word(&mut self, row: usize)
        requires { row < 44 }
        ensures { Puts self.old (listed row) self.new }
    {
        self.at = put_word(self.room, self.at, row);
    }

    // So many spaces.
    fn spaces(&mut self, count: usize)
        ensures { Puts self.old (replicate count 32) self.new }
    {
        self.at = put_spaces(self.room, self.at, count);
    }

    // A new line, so far in.
    pub fn line(&mut self, depth: usize)
        ensures { Puts self.old (10 ∷ replicate (2 * min depth 40) 32) self.new }
    {
        self.put(b'\n');
        self.spaces(margin(depth));
    }

    // A number's digits, at most so many.
    fn digits(&mut self, n: usize, most: usize)
        ensures { Puts self.old (digits_f most n []) self.new }
    {
        if most == 0 {
            return;
        }
        if n < 10 {
            return self.put(digit(n));
        }
        self.digits(n / 10, most - 1);
        self.put(digit(n % 10));
    }

    // A number behind a space.
    pub fn number(&mut self, n: usize)
        ensures { Puts self.old (32 ∷ decimal n) self.new }
    {
        self.put(b' ');
        self.digits(n, 10);
    }

    // A name behind a space: a letter, and the number of a node.
    pub fn name(&mut self, first: u8, node: usize)
        ensures { Puts self.old (32 ∷ first ∷ decimal node) self.new }
    {
        self.put(b' ');
        self.put(first);
        self.digits(node, 10);
    }

    // An integer: a word of 32 bits, in two's complement.
    fn integer(&mut self, w: u32)
        ensures { Puts self.old (signed_decimal w) self.new }
    {
        let n = w as usize;
        if n < 2147483648 {
            return self.digits(n, 10);
        }
        self.put(b'-');
        self.digits(4294967296 - n, 10);
    }

    // A plain value's word.
    fn plain(&mut self, t: u8, w: u32)
        ensures { Puts self.old (plain_word t w) self.new }
    {
        match t {
            INT => self.integer(w),
            BOOL if w == 1 => self.word(TRUE),
            BOOL => self.word(FALSE),
            _ => self.word(UNIT),
        }
    }

    // A type's word.
    pub fn type_word(&mut self, t: u8)
        ensures { Puts self.old (type_word t) self.new }
    {
        if t < 8 {
            self.word(t as usize + TYPES);
        }
    }

    // A value that is there, or none, in parentheses, behind the first of them.
    fn maybe(&mut self, t: u8, present: bool, w: u32)
        ensures { Puts self.old (maybe_words t present w) self.new }
    {
        if present {
            self.word(SOME);
            self.put(b' ');
            return self.plain(t, w);
        }
        self.word(NONE);
        self.put(b' ');
        self.type_word(t);
    }

    // A value, behind a space.
    pub fn value(&mut self, t: u8, present: usize, w: u32)
        ensures { Puts self.old (spread (value_pieces t present w)) self.new }
    {
        self.put(b' ');
        if both(1 <= t, t <= 3) {
            return self.plain(t, w);
        }
        self.put(b'(');
        self.maybe(t.saturating_sub(4), present == 1, w);
        self.put(b')');
    }
}
