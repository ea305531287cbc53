// Writes each line as soon as it is made.
use rules::{Checked, Refusal};

// Why a run ends before its last line: a read of standard input failed, or a write of a line.
#[derive(Clone, Copy)]
pub enum Failure {
    Input,
    Output,
}

// Writes a line. No line may follow one that was not written: a run with a gap would read as a whole one.
pub fn put(rt: &impl Print, line: &[u8]) -> Result<(), Failure> {
    match feed::write(rt, line) {
        Ok(()) => Ok(()),
        Err(_) => Err(Failure::Output),
    }
}

// Says on standard error that what was printed is not the whole run.
pub fn ended(rt: &impl Eprint, failure: Failure) {
    let _ = rt.eprint(match failure {
        Failure::Input => "watchrun: standard input failed; this is not its end\n",
        Failure::Output => "watchrun: standard output failed; lines are lost\n",
    });
}

// The first line of what check found, or the only one.
pub fn opening(rt: &impl Print, found: Result<Checked, Refusal>) -> Result<(), Failure> {
    let mut line = [0u8; 64];
    let k = printing::opening(found, &mut line);
    put(rt, &line[..k])
}
