// The memory of a request: its program or text, a state, a watch's list, records or the new program of a pair, the room that is written or the entries,
// and a watch's second room, one after another in the input. The list's bytes go into the second room, which is read behind them.
use crate::answer;
use feed::{Reader, Writer, first, take_entries};
use std::io::{Read, Result};
use wire::Request;

// How many bytes of each a request has.
#[derive(Clone, Copy)]
struct Sizes {
    program: usize,
    state: usize,
    list: usize,
    records: usize,
    room: usize,
    shown: usize,
}

// So many bytes of each.
fn sized(program: u32, state: u32, list: u16, records: u32, room: u32, shown: u32) -> Sizes {
    Sizes {
        program: program as usize,
        state: state as usize,
        list: list as usize,
        records: records as usize,
        room: room as usize,
        shown: shown as usize,
    }
}

// The lengths that a request's header says; none where it has no such memory.
impl From<Request> for Sizes {
    fn from(request: Request) -> Sizes {
        match request {
            Request::Check(p) => sized(p, 0, 0, 0, 0, 0),
            Request::Start(p, s) => sized(p, s, 0, 0, 0, 0),
            Request::Run(p, s, r, o) => sized(p, s, 0, r, o, 0),
            Request::Watch(p, s, l, r, o, w) => sized(p, s as u32, l, r, o, w),
            Request::Chain(p, n) => sized(p, 0, 0, 0, 2 * n as u32, 0),
            Request::Mend(p, s, n) => sized(p, s, 0, 0, 2 * n as u32, 0),
            Request::Pair(p, q, n) => sized(p, 0, 0, q, 2 * n as u32, 0),
            Request::Tidy(p, n) | Request::Read(p, n) | Request::Print(p, n) => {
                sized(p, 0, 0, 0, n, 0)
            }
        }
    }
}

// The memory of one request at a time. (Arrays of the largest size that a request may have: its memory is fixed.)
#[derive(Drop)]
pub struct Rooms {
    program: [u8; 196608],
    state: [u8; 16384],
    records: [u8; 196608],
    room: [u8; 196608],
    entries: [u16; 65536],
    shown: [u8; 540672],
}

impl Rooms {
    pub fn new() -> Rooms {
        Rooms {
            program: [0; 196608],
            state: [0; 16384],
            records: [0; 196608],
            room: [0; 196608],
            entries: [0; 65536],
            shown: [0; 540672],
        }
    }

    // Reads all memory of a request; the entries of a watch's list stand at the start of its room of entries.
    pub fn read(&mut self, request: Request, reader: &mut Reader<impl Read>) -> Result<()> {
        let n = Sizes::from(request);
        reader.fill(&mut self.program, n.program)?;
        reader.fill(&mut self.state, n.state)?;
        reader.fill(&mut self.shown, n.list)?;
        take_entries(first(&self.shown, n.list), &mut self.entries);
        reader.fill(&mut self.records, n.records)?;
        reader.fill(&mut self.room, n.room)?;
        reader.fill(&mut self.shown, n.shown)
    }

    // Makes the call of a request whose memory is read, and puts the answer to the output; nothing where a room is too short.
    pub fn call(&mut self, request: Request, out: &mut Writer<impl Print>) -> Option<()> {
        let n = Sizes::from(request);
        let program = first(&self.program, n.program);
        let state = self.state.get_mut(..n.state)?;
        let records = first(&self.records, n.records);
        let room = self.room.get_mut(..n.room)?;
        let entries = &mut self.entries;
        match request {
            Request::Check(_) => answer::check(program, out),
            Request::Start(..) => answer::start(program, state, out),
            Request::Run(..) => answer::run(program, state, records, room, out),
            Request::Watch(..) => {
                let list = first(entries, n.list / 2);
                let shown = self.shown.get_mut(..n.shown)?;
                answer::watch(program, state, records, list, room, shown, out);
            }
            Request::Chain(_, count) => {
                answer::chain(program, entries.get_mut(..count as usize)?, room, out);
            }
            Request::Mend(_, _, count) => {
                answer::mend(
                    program,
                    state,
                    entries.get_mut(..count as usize)?,
                    room,
                    out,
                );
            }
            Request::Tidy(..) => answer::tidy(program, room, out),
            Request::Pair(_, _, count) => {
                answer::pair(
                    program,
                    records,
                    entries.get_mut(..count as usize)?,
                    room,
                    out,
                );
            }
            Request::Read(..) => answer::read(program, room, out),
            Request::Print(..) => answer::print(program, room, out),
        }
        Some(())
    }
}
