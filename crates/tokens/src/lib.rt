// The words of a text, one after the other, from a position that moves forward only.
#![tactic(auto)]

ghost use Rattle.std.specs.Prelude.{◌≡◌, true, ◌∷◌, ◌≤◌, ◌<◌, length, drop};
ghost use Rattle.texts.specs.Tokens.{ends_line, is_white, is_mark, is_part, between, comment, from, part};
ghost use Rattle.tokens.specs.Ahead.{Ahead, RestOfWord, Still, Blank};

// A word of a text: where it begins, and where it ends.
#[derive(Clone, Copy)]
pub struct Span {
    pub first: usize,
    pub end: usize,
}

pub fn ends_line(b: u8) -> bool
    ensures { result ≡ ends_line b }
{
    b == 10 || b == 13
}

pub fn is_white(b: u8) -> bool
    ensures { result ≡ is_white b }
{
    b == 32 || b == 9 || ends_line(b)
}

pub fn is_mark(b: u8) -> bool
    ensures { result ≡ is_mark b }
{
    b == 40 || b == 41
}

// A byte that goes on with a word.
fn is_part(b: u8) -> bool
    ensures { result ≡ is_part b }
{
    !(is_white(b) || b == 59 || is_mark(b))
}

// The end of a comment: of its line, or of the text.
pub fn line_end(s: &[u8], at: usize) -> usize
    requires { at ≤ length s.now }
    ensures forward { (at ≤ result) × (result ≤ length s.now) }
    ensures s_value { comment at (drop at s.now) ≡ from s.now result }
{
    for i in at..s.len() {
        if ends_line(s[i]) {
            return i;
        }
    }
    s.len()
}

// The end of a word that has begun: its first byte that is no part of it, or the text's end.
pub fn word_end(s: &[u8], at: usize) -> usize
    requires { at ≤ length s.now }
    ensures forward { (at ≤ result) × (result ≤ length s.now) }
    ensures rest_of_word { RestOfWord s.now at result }
{
    for i in at..s.len() {
        if !is_part(s[i]) {
            return i;
        }
    }
    s.len()
}

// Behind a white byte or a comment; where neither stands at a position, that position.
pub fn past_blank(s: &[u8], i: usize) -> usize
    requires { i < length s.now }
    ensures forward { (i ≤ result) × (result ≤ length s.now) }
    ensures still { Still s.now i result }
{
    let b = s[i];
    if is_white(b) {
        return i + 1;
    }
    if b == 59 {
        return line_end(s, i + 1);
    }
    i
}

// The end of the white space and the comments from a position on. (The position jumps behind each, so no index is counted.)
pub fn blank_end(s: &[u8], at: usize) -> usize
    requires { at ≤ length s.now }
    ensures forward { (at ≤ result) × (result ≤ length s.now) }
    ensures blank { Blank s.now at result }
{
    let mut i = at;
    while i < s.len() {
        let j = past_blank(s, i);
        if j == i {
            return i;
        }
        i = j;
    }
    i
}

// The next word from a position on.
pub fn next_word(s: &[u8], at: usize) -> Option<Span>
    requires { at ≤ length s.now }
    ensures { Ahead s.now at result }
{
    let first = blank_end(s, at);
    if s.len() <= first {
        return None;
    }
    if is_mark(s[first]) {
        return Some(Span {
            first,
            end: first + 1,
        });
    }
    let end = word_end(s, first + 1);
    Some(Span { first, end })
}

// The same from any position: behind the text there is no word.
pub fn word_from(s: &[u8], at: usize) -> Option<Span>
    ensures { Ahead s.now at result }
{
    if s.len() < at {
        return None;
    }
    next_word(s, at)
}

// A text that is being read, and the place where the reader is. (02 b: "A position in the lent text that moves forward only".)
#[derive(Clone, Copy)]
pub struct Reader<'a> {
    pub src: &'a [u8],
    pub at: usize,
}

impl<'a> Reader<'a> {
    pub fn open(src: &'a [u8]) -> Reader<'a>
        ensures { (result.src ≡ src.entry) × (result.at ≡ 0) }
    {
        Reader { src, at: 0 }
    }

    // The next word from where the reader is.
    pub fn look(self) -> Option<Span>
        ensures { Ahead self.entry.src.now self.entry.at result }
    {
        word_from(self.src, self.at)
    }

    // The same text from another place.
    pub fn moved(self, at: usize) -> Reader<'a>
        ensures { (result.src ≡ self.entry.src) × (result.at ≡ at) }
    {
        Reader { src: self.src, at }
    }
}

// The first word of a text.
pub fn first_word(s: &[u8]) -> Option<Span>
    ensures { Ahead s.now 0 result }
{
    Reader::open(s).look()
}
