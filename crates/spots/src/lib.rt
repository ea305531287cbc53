// Where a position stands in a text, for people: its line and its column, the line itself and a mark under the place. Definitions in specs/.
#![tactic(auto)]

ghost use Rattle.std.specs.Prelude.{◌≡◌, ◌+◌, ◌≤◌, length, if◌then◌else◌};
ghost use Rattle.rules.specs.Bytes.{byte_at};
ghost use Rattle.spots.specs.Standing.{ends_line, lines_before, line_start, begins_one};

// The line of a position, counted from 1, and the position at which that line begins.
#[derive(Clone, Copy, Debug, PartialEq, Eq)]
pub struct Spot {
    pub line: usize,
    pub start: usize,
}

// Does a line end with a byte that another follows?
#[tactic(auto, unfolding(crate::specs::Standing::ends_line))]
fn ends(byte: u8, next: u8) -> bool
    ensures { result ≡ ends_line byte next }
{
    match byte {
        b'\n' => true,
        b'\r' => next != b'\n',
        _ => false,
    }
}

// The byte at index i, 0 behind the end.
#[tactic(auto, unfolding(rules::specs::Bytes::byte_at))]
fn byte_at(text: &[u8], i: usize) -> u8
    ensures { result ≡ byte_at text.now i }
{
    text.get(i).copied().unwrap_or(0)
}

// Goes through the lines before a position.
pub fn spot_of(text: &[u8], at: usize) -> Spot
    ensures { at ≤ length text.now → (result.line ≡ lines_before text.now at + 1) × (result.start ≡ line_start text.now at) }
{
    let mut spot = Spot { line: 1, start: 0 };
    for i in 0..at.min(text.len()) {
        if ends(byte_at(text, i), byte_at(text, i + 1)) {
            spot = Spot {
                line: spot.line + 1,
                start: i + 1,
            };
        }
    }
    spot
}

// Does a byte begin a character? Those from 128 to 191 go on with one.
#[tactic(auto, unfolding(crate::specs::Standing::begins_one))]
fn begins(byte: u8) -> bool
    ensures { (if result then 1 else 0) ≡ begins_one byte }
{
    !matches!(byte, 128..=191)
}

// The part of a text from an index to another, as far as there is one.
fn part(text: &[u8], from: usize, to: usize) -> &[u8] {
    text.get(from..to.min(text.len())).unwrap_or(&[])
}

// The column of a position, counted from 1 in characters, in the line that begins at a start.
pub fn column(text: &[u8], start: usize, at: usize) -> usize {
    let line = part(text, start, at);
    1 + line.iter().filter(|byte| begins(**byte)).count()
}

// A byte as it is shown: no terminal takes it for anything but itself.
fn seen(byte: u8) -> u8 {
    match byte {
        b'\t' => byte,
        0..=31 | 127 => b'?',
        _ => byte,
    }
}

// From where on a line that begins at a start is shown, so that the place is in sight.
pub fn shown_from(start: usize, at: usize) -> usize {
    if at.saturating_sub(start) < 72 {
        start
    } else {
        at - 72
    }
}

// Puts the line from an index on to the front of a room, to its end or 112 bytes of it; how many bytes that are.
pub fn line_part(text: &[u8], from: usize, room: &mut [u8; 128]) -> usize
    ensures { result ≤ 112 }
{
    let rest = part(text, from, from.saturating_add(112));
    let end = rest
        .iter()
        .position(|byte| matches!(byte, b'\n' | b'\r'))
        .unwrap_or(rest.len());
    let n = end.min(112);
    for (place, &byte) in room.iter_mut().zip(&rest[..n]) {
        *place = seen(byte);
    }
    n
}

// What stands before the mark: a tab for a tab, a space for all else.
fn blank(byte: u8) -> u8 {
    if byte == b'\t' { byte } else { b' ' }
}

// Puts the mark under the place to the front of a room; how many bytes that are.
pub fn mark_part(text: &[u8], from: usize, at: usize, room: &mut [u8; 128]) -> usize
    ensures { result ≤ 101 }
{
    let mut n = 0;
    for &byte in part(text, from, at) {
        if n >= 100 {
            break;
        }
        if begins(byte) {
            room[n] = blank(byte);
            n += 1;
        }
    }
    room[n] = b'^';
    n + 1
}
