// The header line of a request.
ghost use Rattle.std.specs.Prelude.{◌≡◌, take, IfSome};
ghost use Rattle.io.specs.Counts.{IsPrefixLen};
ghost use Rattle.wire.specs.Lines.{header_line, check_line, start_line, run_line, chain_line, mend_line, tidy_line, pair_line, watch_line, reading_line, printing_line};

use crate::Request;
use crate::guess::guess;
use crate::text::{put, put_field, put_short};

// The header line of a check, at the start of line; answers its length, as the others do.
fn check_header(p: u32, line: &mut [u8; 64]) -> usize
    ensures prefix_len { IsPrefixLen result line.new }
    ensures line_after { take result line.new ≡ check_line p }
{
    let a = put(b"check ", line, 0);
    put_field(p, b'\n', line, a)
}

// The header line of a start.
fn start_header(p: u32, s: u32, line: &mut [u8; 64]) -> usize
    ensures prefix_len { IsPrefixLen result line.new }
    ensures line_after { take result line.new ≡ start_line p s }
{
    let a = put(b"start ", line, 0);
    let b = put_field(p, b' ', line, a);
    put_field(s, b'\n', line, b)
}

// The header line of a run.
fn run_header(p: u32, s: u32, r: u32, o: u32, line: &mut [u8; 64]) -> usize
    ensures prefix_len { IsPrefixLen result line.new }
    ensures line_after { take result line.new ≡ run_line p s r o }
{
    let a = put(b"run ", line, 0);
    let b = put_field(p, b' ', line, a);
    let c = put_field(s, b' ', line, b);
    let d = put_field(r, b' ', line, c);
    put_field(o, b'\n', line, d)
}

// The header line of a watch, with the list's length in bytes.
fn watch_header(p: u32, s: u16, l: u16, r: u32, o: u32, w: u32, line: &mut [u8; 64]) -> usize
    ensures prefix_len { IsPrefixLen result line.new }
    ensures line_after { take result line.new ≡ watch_line p s l r o w }
{
    let a = put(b"watch ", line, 0);
    let b = put_field(p, b' ', line, a);
    let c = put_short(s, b' ', line, b);
    let d = put_short(l, b' ', line, c);
    let e = put_field(r, b' ', line, d);
    let f = put_field(o, b' ', line, e);
    put_field(w, b'\n', line, f)
}

// The header line of a chain, with the room's length in bytes.
fn chain_header(p: u32, c: u32, line: &mut [u8; 64]) -> usize
    ensures prefix_len { IsPrefixLen result line.new }
    ensures line_after { take result line.new ≡ chain_line p c }
{
    let a = put(b"chain ", line, 0);
    let b = put_field(p, b' ', line, a);
    put_field(c, b'\n', line, b)
}

// The header line of a mend, with the list's length in bytes.
fn mend_header(p: u32, s: u32, c: u32, line: &mut [u8; 64]) -> usize
    ensures prefix_len { IsPrefixLen result line.new }
    ensures line_after { take result line.new ≡ mend_line p s c }
{
    let a = put(b"mend ", line, 0);
    let b = put_field(p, b' ', line, a);
    let d = put_field(s, b' ', line, b);
    put_field(c, b'\n', line, d)
}

// The header line of a tidy.
fn tidy_header(p: u32, r: u32, line: &mut [u8; 64]) -> usize
    ensures prefix_len { IsPrefixLen result line.new }
    ensures line_after { take result line.new ≡ tidy_line p r }
{
    let a = put(b"tidy ", line, 0);
    let b = put_field(p, b' ', line, a);
    put_field(r, b'\n', line, b)
}

// The header line of a pair, with the pairing's length in bytes.
fn pair_header(p: u32, q: u32, c: u32, line: &mut [u8; 64]) -> usize
    ensures prefix_len { IsPrefixLen result line.new }
    ensures line_after { take result line.new ≡ pair_line p q c }
{
    let a = put(b"pair ", line, 0);
    let b = put_field(p, b' ', line, a);
    let d = put_field(q, b' ', line, b);
    put_field(c, b'\n', line, d)
}

// The header line of a read: the lengths of the text and of the room.
fn read_header(t: u32, r: u32, line: &mut [u8; 64]) -> usize
    ensures prefix_len { IsPrefixLen result line.new }
    ensures line_after { take result line.new ≡ reading_line t r }
{
    let a = put(b"read ", line, 0);
    let b = put_field(t, b' ', line, a);
    put_field(r, b'\n', line, b)
}

// The header line of a print: the lengths of the program and of the room.
fn print_header(p: u32, r: u32, line: &mut [u8; 64]) -> usize
    ensures prefix_len { IsPrefixLen result line.new }
    ensures line_after { take result line.new ≡ printing_line p r }
{
    let a = put(b"print ", line, 0);
    let b = put_field(p, b' ', line, a);
    put_field(r, b'\n', line, b)
}

// Puts a request's header line at the start of line, and answers its length.
pub fn header(request: Request, line: &mut [u8; 64]) -> usize
    ensures prefix_len { IsPrefixLen result line.new }
    ensures line_after { take result line.new ≡ header_line request }
{
    match request {
        Request::Check(p) => check_header(p, line),
        Request::Start(p, s) => start_header(p, s, line),
        Request::Run(p, s, r, o) => run_header(p, s, r, o, line),
        Request::Watch(p, s, l, r, o, w) => watch_header(p, s, l, r, o, w, line),
        Request::Chain(p, n) => chain_header(p, 2 * (n as u32), line),
        Request::Mend(p, s, n) => mend_header(p, s, 2 * (n as u32), line),
        Request::Tidy(p, r) => tidy_header(p, r, line),
        Request::Pair(p, q, n) => pair_header(p, q, 2 * (n as u32), line),
        Request::Read(t, r) => read_header(t, r, line),
        Request::Print(p, r) => print_header(p, r, line),
    }
}

// The request whose header line `line` is, byte for byte.
pub fn request_of(line: &[u8]) -> Option<Request>
    ensures { IfSome result (λ request. line.now ≡ header_line request) }
{
    let likely = guess(line)?;
    let mut text = [0u8; 64];
    let n = header(likely, &mut text);
    if check::same(line, &text[..n]) {
        return Some(likely);
    }
    None
}
