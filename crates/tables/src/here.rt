// A place in a text, shown: its line, and under it a mark.
use crate::say::{Told, put};

// Says the line of a place, which begins at a start, and under it the mark.
pub fn point(rt: &HostRuntime, text: &[u8], start: usize, at: usize) -> Result<(), Told> {
    let from = spots::shown_from(start, at);
    let mut room = [0u8; 128];
    let n = spots::line_part(text, from, &mut room);
    put(rt, feed::first(&room, n))?;
    put(rt, b"\n")?;
    let k = spots::mark_part(text, from, at, &mut room);
    put(rt, feed::first(&room, k))?;
    put(rt, b"\n")
}
