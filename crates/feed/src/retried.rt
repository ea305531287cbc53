// One read and one write. What a signal interrupts before it has a byte answers nothing, and is tried again; no number of tries is known to be
// enough, so they are counted up to one that no run uses up.
ghost use Rattle.std.specs.Prelude.{◌≤◌, length, IfOk};
ghost use Rattle.std.specs.Io.{ReadsAtMost};

use std::io::{Error, ErrorKind, Print, Read, Result};

// Takes a step that answers a count until no signal interrupts it; the count is at most `most`.
fn retried<F: FnMut() -> Result<usize>>(most: usize, mut step: F) -> Result<usize>
    requires { F.IsAlwaysCallable step }
    ensures { IfOk result (λ n. n ≤ most) }
{
    for _ in 0..u64::MAX {
        match step() {
            Ok(n) => return Ok(n.min(most)),
            Err(e) => {
                if e.kind() != ErrorKind::Interrupted {
                    return Err(e);
                }
            }
        }
    }
    Err(Error::from(ErrorKind::Interrupted))
}

// One read: how many bytes of buffer it filled, none at the end of the input.
pub(crate) fn one_read(source: &mut impl Read, buffer: &mut [u8]) -> Result<usize>
    ensures { ReadsAtMost result buffer.new }
{
    retried(buffer.len(), || source.read(buffer))
}

// One write: how many bytes of text it took.
pub(crate) fn one_write(sink: &impl Print, text: &[u8]) -> Result<usize>
    ensures { IfOk result (λ n. n ≤ length text.now) }
{
    retried(text.len(), || sink.write_some(text))
}
