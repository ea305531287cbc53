// What request a line may be the header of. `request_of` writes the guess out again and compares, so nothing is owed here but safety.
use crate::Request;
use std::str::SplitAsciiWhitespace;

// The next word as a number of at most nine digits.
fn number(words: &mut SplitAsciiWhitespace) -> Option<u32> {
    let word = words.next()?;
    if word.len() > 9 {
        return None;
    }
    word.parse().ok()
}

// The next word as a number of 16 bits.
fn short(words: &mut SplitAsciiWhitespace) -> Option<u16> {
    u16::try_from(number(words)?).ok()
}

// The next word as how many entries there are: the word is of bytes, two for each entry.
fn entries(words: &mut SplitAsciiWhitespace) -> Option<u16> {
    u16::try_from(number(words)? / 2).ok()
}

// The number of bytes of a list, which are even.
fn even(words: &mut SplitAsciiWhitespace) -> Option<u16> {
    let n = short(words)?;
    if n % 2 == 0 { Some(n) } else { None }
}

// The request that is called by this name, with the numbers that follow.
fn named(name: &str, words: &mut SplitAsciiWhitespace) -> Option<Request> {
    let request = match name {
        "check" => Request::Check(number(words)?),
        "start" => Request::Start(number(words)?, number(words)?),
        "run" => Request::Run(
            number(words)?,
            number(words)?,
            number(words)?,
            number(words)?,
        ),
        "watch" => Request::Watch(
            number(words)?,
            short(words)?,
            even(words)?,
            number(words)?,
            number(words)?,
            number(words)?,
        ),
        "chain" => Request::Chain(number(words)?, entries(words)?),
        "mend" => Request::Mend(number(words)?, number(words)?, entries(words)?),
        "tidy" => Request::Tidy(number(words)?, number(words)?),
        "pair" => Request::Pair(number(words)?, number(words)?, entries(words)?),
        "read" => Request::Read(number(words)?, number(words)?),
        "print" => Request::Print(number(words)?, number(words)?),
        _ => return None,
    };
    Some(request)
}

// The call goes by the first word.
pub(crate) fn guess(line: &[u8]) -> Option<Request> {
    let text = str::from_utf8(line).ok()?;
    let mut words = text.split_ascii_whitespace();
    let name = words.next()?;
    named(name, &mut words)
}
