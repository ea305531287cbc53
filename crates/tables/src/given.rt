// The words that the program is called with: word 0 is the program's own name.
ghost use Rattle.std.specs.Prelude.{IfOk};
ghost use Rattle.io.specs.Counts.{IsPrefixLen};

use std::env::FillError;
use std::io::Error;
use std::rt::Env;

// The C library's numbers for a word that is missing, and for one that is too long.
const EINVAL: i32 = 22;

const ENAMETOOLONG: i32 = 36;

// Why a word is not there, as an error of the system.
fn missing(error: FillError) -> Error {
    Error::from_raw_os_error(match error {
        FillError::NotPresent => EINVAL,
        FillError::TooLong => ENAMETOOLONG,
    })
}

// Puts word i at the start of room, and answers its length, or why it is not there.
pub fn whole_word(rt: &HostRuntime, i: usize, room: &mut [u8]) -> Result<usize, Error>
    ensures { IfOk result (λ n. IsPrefixLen n room.new) }
{
    rt.arg(i, room).map_err(missing)
}

// The same, with 0 where it is missing or longer than room.
pub fn word(rt: &HostRuntime, i: usize, room: &mut [u8]) -> usize
    ensures { IsPrefixLen result room.new }
{
    rt.arg(i, room).unwrap_or(0)
}

// Is there a word i?
pub fn is_word(rt: &HostRuntime, i: usize) -> bool {
    let mut none = [0u8; 1];
    !matches!(rt.arg(i, &mut none), Err(FillError::NotPresent))
}

// How many words there are.
pub fn count(rt: &HostRuntime) -> usize {
    (0..usize::MAX)
        .find(|&i| !is_word(rt, i))
        .unwrap_or(usize::MAX)
}
