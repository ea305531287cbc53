// Writing: text is gathered in a buffer, and goes out where the buffer is full or the program would wait for input.
ghost use Rattle.std.specs.Prelude.{◌≡◌, ◌+◌, ◌≤◌, ◌↔◌, IsTrue, length, IfOk};

use crate::Reader;
use crate::retried::one_write;
use std::io::{Error, ErrorKind, Print, Read, Result};

// Output in large pieces: what is written to, a lent buffer, and how many bytes at its start wait.
#[derive(Drop)]
pub struct Writer<'a, P> {
    pub sink: P,
    pub buffer: &'a mut [u8],
    pub waiting: usize,
}

// Writes all of text; it ends at the first write that fails or takes nothing. (How much a turn takes isn't known before it, so a `for` would be no
// plainer; std's write_all is such a loop.)
pub fn write(sink: &impl Print, text: &[u8]) -> Result<()> {
    let mut done = 0;
    while done < text.len() {
        let n = one_write(sink, &text[done..])?;
        if n == 0 {
            return Err(Error::from(ErrorKind::WriteZero));
        }
        done += n;
    }
    Ok(())
}

impl<'a, P: Print> Writer<'a, P> {
    // A writer with nothing that waits.
    pub fn new(sink: P, buffer: &'a mut [u8]) -> Writer<'a, P>
        ensures { result.waiting ≡ 0 }
    {
        Writer {
            sink,
            buffer,
            waiting: 0,
        }
    }

    // Writes what waits.
    fn drain(&self) -> Result<()> {
        if self.waiting > self.buffer.len() {
            return Ok(());
        }
        write(&self.sink, &self.buffer[..self.waiting])
    }

    // Writes what waits. What a write that fails did not take is lost.
    pub fn flush(&mut self)
        ensures { self.new.waiting ≡ 0 }
    {
        let _ = self.drain();
        self.waiting = 0;
    }

    // Whether so many bytes more find room behind what waits.
    fn has_room(&self, count: usize) -> bool
        ensures { IsTrue result ↔ (self.now.waiting + count ≤ length self.now.buffer.now) }
    {
        let room = self.buffer.len();
        self.waiting <= room && count <= room - self.waiting
    }

    // Puts text behind what waits.
    fn put(&mut self, text: &[u8])
        requires { self.old.waiting + length text.now ≤ length self.old.buffer.now }
        ensures { self.new.waiting ≤ length self.new.buffer.now }
    {
        let at = self.waiting;
        let end = at + text.len();
        self.buffer[at..end].copy_from_slice(text);
        self.waiting = end;
    }

    // Puts text behind what waits, which is written first where there is too little room.
    pub fn append(&mut self, text: &[u8])
        ensures { self.new.waiting ≤ length self.new.buffer.now }
    {
        if self.has_room(text.len()) {
            self.put(text);
            return;
        }
        self.flush();
        if self.has_room(text.len()) {
            self.put(text);
            return;
        }
        let _ = write(&self.sink, text);
    }

    // Writes what waits where nothing is unread, since the next read may wait too.
    pub fn rest<R: Read>(&mut self, reader: &Reader<R>) {
        if reader.is_used_up() {
            self.flush();
        }
    }
}
