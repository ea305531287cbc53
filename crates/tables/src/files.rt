// The files that a command names; - is standard input.
ghost use Rattle.std.specs.Prelude.{IfOk};
ghost use Rattle.io.specs.Counts.{IsPrefixLen};

use crate::given;
use crate::say::{Told, failed};
use std::fs;
use std::fs::File;
use std::io::{Error, Read, Write};

// A program is at most 24 blocks; one byte more tells that the file is longer.
pub const PROGRAM: usize = 12289;

// Reads until room is full or the file ends, and answers how many bytes stand in it then. (How much a turn reads isn't known before it, so a `for`
// would be no plainer.)
fn all<R: Read>(from: &mut R, room: &mut [u8]) -> Result<usize, Error>
    ensures { IfOk result (λ n. IsPrefixLen n room.new) }
{
    let mut done = 0;
    while done < room.len() {
        match from.read(&mut room[done..])? {
            0 => break,
            n => done += n,
        }
    }
    Ok(done)
}

// Reads the file that argument i names into room, and answers its length; says on standard error what failed.
pub fn argument(rt: &HostRuntime, i: usize, room: &mut [u8]) -> Result<usize, Told>
    ensures { IfOk result (λ n. IsPrefixLen n room.new) }
{
    let mut path = io::buffer();
    let n = given::whole_word(rt, i, &mut path).map_err(|error| failed(
        rt,
        b"tables: no file is named",
        error,
    ))?;
    let path = &path[..n];
    named(rt, path, room).map_err(|error| failed(rt, path, error))
}

// Reads the file of a name.
fn named(rt: &HostRuntime, path: &[u8], room: &mut [u8]) -> Result<usize, Error>
    ensures { IfOk result (λ n. IsPrefixLen n room.new) }
{
    if path == b"-".as_slice() {
        return all(&mut rt.stdin(), room);
    }
    let mut file = fs::open(rt, text(path)?)?;
    all(&mut file, room)
}

// The C library's numbers for bytes that are no text, and for a file that is not there.
const EILSEQ: i32 = 84;

const ENOENT: i32 = 2;

// A name as text: what std's calls on files take.
fn text(path: &[u8]) -> Result<&str, Error> {
    std::str::from_utf8(path).map_err(|_| Error::from_raw_os_error(EILSEQ))
}

// Takes a file away, where it is there.
fn gone(rt: &HostRuntime, path: &[u8]) {
    if let Ok(name) = text(path) {
        let _ = fs::remove_file(rt, name);
    }
}

// Gives a file another name.
fn moved(rt: &HostRuntime, from: &[u8], to: &[u8]) -> Result<(), Error> {
    fs::rename(rt, text(from)?, text(to)?)
}

// Writes bytes to an open file, to its device.
fn flushed(file: &mut File, bytes: &[u8]) -> Result<(), Error> {
    file.write_all(bytes)?;
    file.sync_all()
}

// Tells what failed, and then takes the file away that it leaves.
fn undone(rt: &HostRuntime, what: &[u8], error: Error, left: &[u8]) -> Told {
    let told = failed(rt, what, error);
    gone(rt, left);
    told
}

// Opens a file for its bytes anew.
fn opened(rt: &HostRuntime, path: &[u8]) -> Result<File, Error> {
    fs::create(rt, text(path)?)
}

// Makes a file of bytes. Half a file is taken away.
fn made(rt: &HostRuntime, path: &[u8], bytes: &[u8]) -> Result<(), Told> {
    let mut file = opened(rt, path).map_err(|error| failed(rt, path, error))?;
    flushed(&mut file, bytes).map_err(|error| undone(rt, path, error, path))
}

// Makes a file of bytes by way of another beside it, which then takes its name; says on standard error what failed.
fn renamed(rt: &HostRuntime, path: &[u8], part: &[u8], bytes: &[u8]) -> Result<(), Told> {
    made(rt, part, bytes)?;
    moved(rt, part, path).map_err(|error| undone(rt, path, error, part))
}

// Makes the file that argument i names of bytes, so that whatever happens there is a whole one, the old or the new. The file beside it has
// .part behind its name; where the name is too long for that, there is none.
pub fn written(rt: &HostRuntime, i: usize, bytes: &[u8]) -> Result<(), Told> {
    let mut path = io::buffer();
    let n = given::word(rt, i, &mut path);
    if n > 4000 {
        return Err(failed(rt, b"", Error::from_raw_os_error(ENOENT)));
    }
    let mut part = io::buffer();
    part[..n].copy_from_slice(&path[..n]);
    part[n..n + 5].copy_from_slice(b".part");
    renamed(rt, &path[..n], &part[..n + 5], bytes)
}
