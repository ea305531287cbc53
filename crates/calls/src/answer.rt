// The calls, and their answers: the line, then each lent room that may be written in hex, a line each.
ghost use Rattle.std.specs.Prelude.{◌≤◌, length};

use feed::{Writer, give_entries, take_entries};

// Puts at most 2,048 bytes in hex to the output.
fn hex_piece(s: &[u8], out: &mut Writer<impl Print>)
    requires { length s.now ≤ 2048 }
{
    let mut text = [0u8; 4096];
    let n = wire::hex(s, &mut text);
    out.append(&text[..n]);
}

// Puts s in hex and a line end to the output, piece by piece.
fn hex_line(s: &[u8], out: &mut Writer<impl Print>) {
    for piece in s.chunks(2048) {
        hex_piece(piece, out);
    }
    out.append(b"\n");
}

// Makes a check.
pub fn check(program: &[u8], out: &mut Writer<impl Print>) {
    let mut line = [0u8; 64];
    let n = wire::checked_line(watch::check(program), &mut line);
    out.append(&line[..n]);
}

// Makes a start, and puts the answer and the state to the output.
pub fn start(program: &[u8], state: &mut [u8], out: &mut Writer<impl Print>) {
    let mut line = [0u8; 64];
    let n = wire::started_line(watch::start(program, state), &mut line);
    out.append(&line[..n]);
    hex_line(state, out);
}

// Makes a run, and puts the answer, the state and the output room to the output.
pub fn run(
    program: &[u8],
    state: &mut [u8],
    records: &[u8],
    room: &mut [u8],
    out: &mut Writer<impl Print>,
) {
    let mut line = [0u8; 64];
    let n = wire::ran_line(watch::run(program, state, records, room), &mut line);
    out.append(&line[..n]);
    hex_line(state, out);
    hex_line(room, out);
}

// Makes a watched run with a list of entries, and puts the answer, the state, the output and the second room to the output.
pub fn watch(
    program: &[u8],
    state: &mut [u8],
    records: &[u8],
    list: &[u16],
    room: &mut [u8],
    shown: &mut [u8],
    out: &mut Writer<impl Print>,
) {
    let mut line = [0u8; 64];
    let found = peeking::watched(program, state, records, list, room, shown);
    let n = wire::watched_line(found, &mut line);
    out.append(&line[..n]);
    hex_line(state, out);
    hex_line(room, out);
    hex_line(shown, out);
}

// Explains in a room of entries, and puts the answer and the room's bytes to the output.
pub fn chain(program: &[u8], entries: &mut [u16], bytes: &mut [u8], out: &mut Writer<impl Print>) {
    take_entries(bytes, entries);
    let mut line = [0u8; 64];
    let n = wire::explained_line(explain::explain(program, entries), &mut line);
    give_entries(entries, bytes);
    out.append(&line[..n]);
    hex_line(bytes, out);
}

// Brings a state back, and puts the answer, the state and the list's bytes to the output.
pub fn mend(
    program: &[u8],
    state: &mut [u8],
    entries: &mut [u16],
    bytes: &mut [u8],
    out: &mut Writer<impl Print>,
) {
    take_entries(bytes, entries);
    let mut line = [0u8; 64];
    let n = wire::mended_line(mend::mend(program, state, entries), &mut line);
    give_entries(entries, bytes);
    out.append(&line[..n]);
    hex_line(state, out);
    hex_line(bytes, out);
}

// Tidies a table, and puts the answer and the room to the output.
pub fn tidy(program: &[u8], room: &mut [u8], out: &mut Writer<impl Print>) {
    let mut line = [0u8; 64];
    let n = wire::tidied_line(tidy::tidy(program, room), &mut line);
    out.append(&line[..n]);
    hex_line(room, out);
}

// Judges a pairing, and puts the answer to the output.
pub fn pair(
    old: &[u8],
    new: &[u8],
    entries: &mut [u16],
    bytes: &[u8],
    out: &mut Writer<impl Print>,
) {
    take_entries(bytes, entries);
    let mut line = [0u8; 64];
    let n = wire::paired_line(pairing::paired(old, new, entries), &mut line);
    out.append(&line[..n]);
}

// Reads a text, and puts the answer and the room to the output.
pub fn read(text: &[u8], room: &mut [u8], out: &mut Writer<impl Print>) {
    let mut line = [0u8; 64];
    let n = wire::read_line(reading::read(text, room), &mut line);
    out.append(&line[..n]);
    hex_line(room, out);
}

// Prints a program, and puts the answer and the room to the output.
pub fn print(program: &[u8], room: &mut [u8], out: &mut Writer<impl Print>) {
    let mut line = [0u8; 64];
    let n = wire::printed_line(typeset::print(program, room), &mut line);
    out.append(&line[..n]);
    hex_line(room, out);
}
