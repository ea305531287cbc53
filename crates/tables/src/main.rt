// tables WORD ARGUMENTS: the commands over tables. A further command is a module with one public function, a word below and a line of help.
#![tactic(auto)]

mod checking;
mod codes;
mod files;
mod given;
mod here;
mod kind;
mod mended;
mod paired;
mod say;
mod tidying;
mod typed;
mod watching;
mod why;

use say::{Misuse, Told, misused};

// What a word names: a command over a table, one over a table and another file, or one about the commands.
#[derive(Clone, Copy, Debug, PartialEq, Eq)]
enum Command {
    Check,
    Read,
    Print,
    Why,
    Mend,
    Pair,
    Tidy,
    Watch,
    Codes,
    Version,
    Help,
}

impl TryFrom<&[u8]> for Command {
    type Error = Misuse;

    fn try_from(word: &[u8]) -> Result<Command, Misuse> {
        match word {
            b"check" => Ok(Command::Check),
            b"read" => Ok(Command::Read),
            b"print" => Ok(Command::Print),
            b"why" => Ok(Command::Why),
            b"mend" => Ok(Command::Mend),
            b"pair" => Ok(Command::Pair),
            b"tidy" => Ok(Command::Tidy),
            b"watch" => Ok(Command::Watch),
            b"codes" => Ok(Command::Codes),
            b"version" => Ok(Command::Version),
            b"help" => Ok(Command::Help),
            _ => Err(Misuse::NoCommand),
        }
    }
}

impl Command {
    fn run(self, rt: &HostRuntime) -> Result<(), Told> {
        match self {
            Command::Check => checking::check(rt),
            Command::Read => typed::read(rt),
            Command::Print => typed::print(rt),
            Command::Why => why::why(rt),
            Command::Mend => mended::mend(rt),
            Command::Pair => paired::pair(rt),
            Command::Tidy => tidying::tidy(rt),
            Command::Watch => watching::watch_nodes(rt),
            Command::Codes => codes::list(rt),
            Command::Version => say::version(rt),
            Command::Help => say::help(rt),
        }
    }
}

// Does what the first argument names.
fn chosen(rt: &HostRuntime) -> Result<(), Told> {
    let mut word = [0u8; 16];
    let n = given::word(rt, 1, &mut word);
    let command = Command::try_from(&word[..n]).map_err(|misuse| misused(rt, misuse))?;
    command.run(rt)
}

// What went wrong is told by then, and ./tables gives the status by the last line.
fn main(rt: HostRuntime) {
    let _ = chosen(&rt);
}
