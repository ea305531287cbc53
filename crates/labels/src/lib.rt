// Names in a text: those noted so far, by where they begin and end, and those of branches, which may stand anywhere.
#![tactic(auto)]

ghost use Rattle.std.specs.Prelude.{◌≡◌, ◌≤◌, ◌<◌, ◌+◌, length, get_or};
ghost use Rattle.texts.specs.Tokens.{tokens};
ghost use Rattle.texts.specs.Spelled.{is_among};
ghost use Rattle.texts.specs.Reader.{branch_names};
ghost use Rattle.labels.specs.Noted.{named_by, names_in, noted, noted_if, Known};
ghost use Rattle.labels.specs.Awaited.{awaited};

use spell::{is_byte, spells};
use tokens::{Span, word_from};

// The name between two numbers. (Numbers that are no part of the text are for no name.)
pub fn named(text: &[u8], first: usize, end: usize) -> &[u8]
    ensures { result.now ≡ named_by text.now first end }
{
    if first <= end && end <= text.len() {
        return &text[first..end];
    }
    &[]
}

// A word of the text is among the names noted so far in a table, which begins at a place with how many there are.
pub fn is_noted(text: &[u8], table: &[usize], base: usize, word: &[u8]) -> bool
    requires { (get_or table.now base 0 ≤ 1008) × (base + 2017 ≤ length table.now) }
    ensures { result ≡ is_among word.now (names_in text.now table.now base) }
{
    for i in (0..table[base]).rev() {
        if word == named(text, table[base + 2 * i + 1], table[base + 2 * i + 2]) {
            return true;
        }
    }
    false
}

// One name more.
pub fn note(table: &mut [usize], base: usize, w: Span)
    requires { (get_or table.old base 0 < 1008) × (base + 2017 ≤ length table.old) }
    ensures { table.new ≡ noted table.old base w.first w.end }
{
    let n = table[base];
    table[base + 2 * n + 1] = w.first;
    table[base + 2 * n + 2] = w.end;
    table[base] = n + 1;
}

// What is awaited behind one word more.
fn await_next(word: &[u8], state: u8) -> u8
    ensures { result ≡ awaited state word.now }
{
    if state == 1 && spells(word, 9) {
        return 2;
    }
    if is_byte(word, b'(') {
        return 1;
    }
    0
}

// A word is the name of a branch: it stands somewhere behind (branch.
fn is_branch_name(text: &[u8], word: &[u8]) -> bool
    ensures { result ≡ is_among word.now (branch_names (tokens text.now)) }
{
    let mut at = 0;
    let mut state: u8 = 0;
    while let Some(w) = word_from(text, at) {
        let next = &text[w.first..w.end];
        if state == 2 && word == next {
            return true;
        }
        state = await_next(next, state);
        at = w.end;
    }
    false
}

// A name is noted, if it is one and there is room: or 1,009 stands for more than can be noted.
fn note_if(table: &mut [usize], wanted: bool, w: Span)
    requires { 2017 ≤ length table.old }
    ensures { table.new ≡ noted_if wanted table.old w.first w.end }
{
    if !wanted {
        return;
    }
    if table[0] < 1008 {
        note(table, 0, w);
        return;
    }
    table[0] = 1009;
}

// Notes the names of all branches of a text, or that there are more than can be noted.
pub fn note_branches(text: &[u8], table: &mut [usize; 2017])
    requires { length table.old ≡ 2017 }
    ensures { Known text.now table.new }
{
    table[0] = 0;
    let mut at = 0;
    let mut state: u8 = 0;
    while let Some(w) = word_from(text, at) {
        note_if(table, state == 2, w);
        state = await_next(&text[w.first..w.end], state);
        at = w.end;
    }
}

// A word is the name of a branch, by the names noted; or by all words, where there are more than can be noted.
pub fn is_target(text: &[u8], table: &[usize; 2017], word: &[u8]) -> bool
    requires { Known text.now table.now }
    ensures { result ≡ is_among word.now (branch_names (tokens text.now)) }
{
    if table[0] < 1009 {
        return is_noted(text, table, 0, word);
    }
    is_branch_name(text, word)
}
