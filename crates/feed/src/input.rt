// Reading: the next piece where the last is used up, a line, a room of known length.
ghost use Rattle.std.specs.Prelude.{◌↔◌, IsTrue, ◌≤◌, ◌≡◌, length, take, min, Ok, Err, IfOk, IfErr};
ghost use Rattle.io.specs.Counts.{IsPrefixLen};

use crate::retried::one_read;
use std::io::{Error, ErrorKind, Read, Result};

// Input in large pieces: what is read from, a lent buffer for a piece, and what of the piece is unread, its bytes from `at` up to `end`.
#[derive(Drop)]
pub struct Reader<'a, R> {
    pub source: R,
    pub buffer: &'a mut [u8],
    pub at: usize,
    pub end: usize,
}

// How many bytes of a buffer of so many a read made unread: none at the end of the input. A failed read is not the end of the input.
fn piece(got: Result<usize>, size: usize) -> Result<usize>
    ensures read { IfOk got (λ n. result ≡ Ok (min n size)) }
    ensures failed { IfErr got (λ e. result ≡ Err e) }
{
    let n = got?;
    Ok(n.min(size))
}

impl<'a, R: Read> Reader<'a, R> {
    // A reader that has read nothing yet.
    pub fn new(source: R, buffer: &'a mut [u8]) -> Reader<'a, R>
        ensures { (result.at ≡ 0) × (result.end ≡ 0) }
    {
        Reader {
            source,
            buffer,
            at: 0,
            end: 0,
        }
    }

    // Whether nothing is unread, so that the next byte takes a read, which may wait.
    pub fn is_used_up(&self) -> bool
        ensures { IsTrue result ↔ (self.now.end ≤ self.now.at) }
    {
        self.end <= self.at
    }

    // One more read where nothing is unread. Nothing is unread after it at the end of the input, or where the read failed.
    fn refill(&mut self) -> Result<()>
        ensures bounds { (self.new.at ≤ self.new.end) × (self.new.end ≤ length self.new.buffer.now) }
        ensures fresh { self.old.end ≤ self.old.at → self.new.at ≡ 0 }
        ensures failed { IfErr result (λ e. self.new.end ≡ 0) }
    {
        if self.at < self.end {
            if self.end <= self.buffer.len() {
                return Ok(());
            }
        }
        self.at = 0;
        self.end = 0;
        let got = one_read(&mut self.source, &mut *self.buffer);
        self.end = piece(got, self.buffer.len())?;
        Ok(())
    }

    // Copies what is unread to the start of room, as much as there is room for, and answers how much.
    fn take(&mut self, room: &mut [u8]) -> usize
        requires { (self.old.at ≤ self.old.end) × (self.old.end ≤ length self.old.buffer.now) }
        ensures { (self.new.at ≤ self.new.end) × (self.new.end ≤ length self.new.buffer.now) × (result ≤ length room.new) }
    {
        let at = self.at;
        let n = room.len().min(self.end - at);
        let stop = at + n;
        room[..n].copy_from_slice(&self.buffer[at..stop]);
        self.at = stop;
        n
    }

    // Fills room with the next bytes of the input, and answers how many: fewer where the input ends. (How much a turn reads isn't known before it, so a
    // `for` would be no plainer; std's read_exact is such a loop.)
    fn fill_all(&mut self, room: &mut [u8]) -> Result<usize>
        ensures { IfOk result (λ n. n ≤ length room.new) }
    {
        let mut done = 0;
        while done < room.len() {
            self.refill()?;
            let n = self.take(&mut room[done..]);
            if n == 0 {
                return Ok(done);
            }
            done += n;
        }
        Ok(done)
    }

    // Fills the first n bytes of room with the next bytes of the input; an error where the input ends before, or n is more than room has.
    pub fn fill(&mut self, room: &mut [u8], n: usize) -> Result<()> {
        if n > room.len() {
            return Err(Error::from(ErrorKind::InvalidInput));
        }
        let count = self.fill_all(&mut room[..n])?;
        if count < n {
            return Err(Error::from(ErrorKind::UnexpectedEof));
        }
        Ok(())
    }

    // Reads up to n bytes of the input to the start of room, and answers how many; none where room has too little.
    pub fn gather(&mut self, room: &mut [u8], n: usize) -> Result<usize>
        ensures { IfOk result (λ count. count ≤ n) }
    {
        match room.get_mut(..n) {
            Some(part) => self.fill_all(part),
            None => Ok(0),
        }
    }

    // The next byte; none at the end of the input.
    fn byte(&mut self) -> Result<Option<u8>> {
        self.refill()?;
        let at = self.at;
        if at == self.end {
            return Ok(None);
        }
        self.at = at + 1;
        Ok(Some(self.buffer[at]))
    }

    // Reads a line with its line end to the start of text, and answers its length: less where the input ends, a read fails or text is full.
    pub fn header(&mut self, text: &mut [u8]) -> usize
        ensures { IsPrefixLen result text.new }
    {
        for (n, slot) in text.iter_mut().enumerate() {
            let Ok(Some(byte)) = self.byte() else {
                return n;
            };
            *slot = byte;
            if byte == b'\n' {
                return n + 1;
            }
        }
        text.len()
    }
}

// The first n elements of s, or all where it has no more.
pub fn first<T>(s: &[T], n: usize) -> &[T]
    ensures { result.now ≡ take n s.now }
{
    &s[..n.min(s.len())]
}
