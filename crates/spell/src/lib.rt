// The words of a text: which word of the form a part of the text is, whether it is a name, and which number.
#![tactic(auto)]

ghost use Rattle.std.specs.Prelude.{◌≡◌, true, ◌∷◌, [], ◌<◌, length, get_or};
ghost use Rattle.texts.specs.Spelled.{same};
ghost use Rattle.texts.specs.Spelling.{kind_named, type_named, edition_named, is_kept, is_digit, is_letter, is_name};
ghost use Rattle.std.specs.List.{list_all};
ghost use Rattle.texts.specs.Numerals.{are_digits, is_natural, read_on};
ghost use Rattle.spell.specs.Vocabulary.{listed, counted, allowed, capped, number_of, digits_in, number_in, is_name_byte};

use kinds::may_be;
use rules::Field;

// Why a word is no number of 32 bits: it is out of range, or no number at all.
#[derive(Clone, Copy, Debug, PartialEq, Eq)]
pub enum NumberFault {
    Outside,
    Other,
}

// The words of the form: kinds, types (from row 30 on), the others (from row 38 on). Each stands behind its length.
static ROWS: [[u8; 16]; 44] = [
    *b"\x00               ",
    *b"\x05input          ",
    *b"\x04time           ",
    *b"\x03ext            ",
    *b"\x05delay          ",
    *b"\x03let            ",
    *b"\x06switch         ",
    *b"\x05group          ",
    *b"\x05until          ",
    *b"\x06branch         ",
    *b"\x04case           ",
    *b"\x00               ",
    *b"\x00               ",
    *b"\x00               ",
    *b"\x00               ",
    *b"\x00               ",
    *b"\x00               ",
    *b"\x00               ",
    *b"\x03add            ",
    *b"\x08subtract       ",
    *b"\x08multiply       ",
    *b"\x06divide         ",
    *b"\x04less           ",
    *b"\x05equal          ",
    *b"\x03not            ",
    *b"\x03and            ",
    *b"\x02or             ",
    *b"\x02if             ",
    *b"\x04just           ",
    *b"\x04take           ",
    *b"\x00               ",
    *b"\x04unit           ",
    *b"\x04bool           ",
    *b"\x03int            ",
    *b"\x00               ",
    *b"\x0amaybe-unit     ",
    *b"\x0amaybe-bool     ",
    *b"\x09maybe-int      ",
    *b"\x04true           ",
    *b"\x05false          ",
    *b"\x04some           ",
    *b"\x04none           ",
    *b"\x0bedition-one    ",
    *b"\x0bedition-two    ",
];

// A byte of a row: its word's length, or a letter.
pub fn letter(row: usize, i: usize) -> u8
    requires row_bound { row < 44 }
    requires i_bound { i < 16 }
    ensures { result ≡ get_or (counted (listed row)) i 32 }
{
    ROWS[row][i]
}

// The length of a word of the form.
pub fn size(row: usize) -> usize
    requires { row < 44 }
    ensures { (result ≡ length (listed row)) × (result < 16) }
{
    letter(row, 0) as usize
}

// A word is the one of a row.
pub fn spells(word: &[u8], row: usize) -> bool
    requires { row < 44 }
    ensures { result ≡ same word.now (listed row) }
{
    word == &ROWS[row][1..size(row) + 1]
}

// A word is one byte: a parenthesis.
pub fn is_byte(word: &[u8], b: u8) -> bool
    ensures { result ≡ same word.now (b ∷ []) }
{
    word == [b].as_slice()
}

// The kind that a word stands for, where a field asks for one.
pub fn kind_named(f: Field, word: &[u8]) -> Option<u32>
    ensures { result ≡ kind_named f word.now }
{
    for k in 0..30u8 {
        if may_be(f, k) && spells(word, k as usize) {
            return Some(k as u32);
        }
    }
    None
}

// A type that may stand where a plain one is asked for, or any.
fn type_fits(plain: bool, t: u8) -> bool
    ensures { result ≡ allowed plain t }
{
    matches!(t, 1..=3) || (!plain && matches!(t, 5..=7))
}

// The type that a word stands for: a plain one, or any.
pub fn type_named(plain: bool, word: &[u8]) -> Option<u32>
    ensures { result ≡ type_named (allowed plain) word.now }
{
    for t in 0..8u8 {
        if type_fits(plain, t) && spells(word, t as usize + 30) {
            return Some(t as u32);
        }
    }
    None
}

// The edition that a word stands for.
pub fn edition_named(word: &[u8]) -> Option<u32>
    ensures { result ≡ edition_named word.now }
{
    if spells(word, 42) {
        return Some(0);
    }
    if spells(word, 43) {
        return Some(1);
    }
    None
}

// A word of the form is no name.
fn is_kept(word: &[u8]) -> bool
    ensures { result ≡ is_kept word.now }
{
    for row in 0..44 {
        if spells(word, row) {
            return true;
        }
    }
    false
}

fn is_digit(b: u8) -> bool
    ensures { result ≡ is_digit b }
{
    48 <= b && b <= 57
}

fn is_letter(b: u8) -> bool
    ensures { result ≡ is_letter b }
{
    (97 <= b && b <= 122) || (65 <= b && b <= 90)
}

// A letter, a digit or a hyphen.
fn is_name_byte(b: u8) -> bool
    ensures { result ≡ is_name_byte b }
{
    is_letter(b) || is_digit(b) || b == 45
}

fn are_name_bytes(word: &[u8]) -> bool
    ensures { result ≡ list_all is_name_byte word.now }
{
    word.iter().all(|b| is_name_byte(*b))
}

// A name: a letter, then letters, digits and hyphens; at most 31 bytes; no word of the form.
pub fn is_name(word: &[u8]) -> bool
    ensures { result ≡ is_name word.now }
{
    match word {
        [] => false,
        [first, rest @ ..] => {
            word.len() <= 31 && is_letter(*first) && are_name_bytes(rest) && !is_kept(word)
        }
    }
}

// Digits only.
fn are_digits(word: &[u8]) -> bool
    ensures { result ≡ list_all is_digit word.now }
{
    word.iter().all(|b| is_digit(*b))
}

// What digits come to; 2147483649 where it is more.
fn magnitude(word: &[u8]) -> u32
    requires { are_digits word.now ≡ true }
    ensures { result ≡ capped (read_on 0 word.now) }
{
    let mut x: u64 = 0;
    for b in word {
        x = 10 * x + (*b as u64 - 48);
        if 2147483648 < x {
            return 2147483649;
        }
    }
    x as u32
}

// Two's complement of a number's size.
fn signed(negative: bool, n: u32) -> Result<u32, NumberFault>
    ensures { result ≡ number_of negative n }
{
    if negative {
        if 2147483648 < n {
            return Err(NumberFault::Outside);
        }
        return Ok(n.wrapping_neg());
    }
    if 2147483647 < n {
        return Err(NumberFault::Outside);
    }
    Ok(n)
}

// Digits, one or more.
fn is_natural(word: &[u8]) -> bool
    ensures { result ≡ is_natural word.now }
{
    !word.is_empty() && are_digits(word)
}

// Digits, behind a minus sign or without, as a number.
fn of_digits(word: &[u8], negative: bool) -> Result<u32, NumberFault>
    ensures { result ≡ digits_in negative word.now }
{
    if !is_natural(word) {
        return Err(NumberFault::Other);
    }
    signed(negative, magnitude(word))
}

// A word as a number.
pub fn number_of_word(word: &[u8]) -> Result<u32, NumberFault>
    ensures { result ≡ number_in word.now }
{
    match word {
        [] => Err(NumberFault::Other),
        [first, digits @ ..] => {
            if *first == b'-' {
                of_digits(digits, true)
            } else {
                of_digits(word, false)
            }
        }
    }
}
