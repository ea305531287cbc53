// Answers a stream of requests to the calls on standard input: see second/README.md, `calls serve`.
#![tactic(auto)]

mod answer;
mod lent;

use feed::{Reader, Writer};
use lent::Rooms;
use std::io::{Error, Read};
use wire::Request;

// Why a stream ends: nothing is left of it, or what comes is no request.
#[derive(Clone, Copy, PartialEq, Eq, Drop)]
enum Stop {
    End,
    NoRequest,
}

// What ends within a request, or says more than a room has, is no request.
impl From<Error> for Stop {
    fn from(_: Error) -> Stop {
        Stop::NoRequest
    }
}

// Reads the header of a request.
fn heard(reader: &mut Reader<impl Read>) -> Result<Request, Stop> {
    let mut text = [0u8; 64];
    let n = reader.header(&mut text);
    if n == 0 {
        return Err(Stop::End);
    }
    wire::request_of(&text[..n]).ok_or(Stop::NoRequest)
}

// One request: reads its header and its memory, makes the call, and puts the answer to the output.
fn turn(
    reader: &mut Reader<impl Read>,
    out: &mut Writer<impl Print>,
    rooms: &mut Rooms,
) -> Result<(), Stop> {
    out.rest(reader);
    let request = heard(reader)?;
    rooms.read(request, reader)?;
    rooms.call(request, out);
    Ok(())
}

// Nothing says that the input ends, so the loop counts its turns up to a number that no run uses up.
fn serve(reader: &mut Reader<impl Read>, out: &mut Writer<impl Print>, rooms: &mut Rooms) {
    for _ in 0..u64::MAX {
        match turn(reader, out, rooms) {
            Ok(()) => {}
            Err(Stop::End) => break,
            Err(Stop::NoRequest) => {
                out.append(b"NO REQUEST\n");
                break;
            }
        }
    }
    out.flush();
}

// The memory of one request at a time, and the pieces of input and output.
fn main(rt: HostRuntime) {
    let mut input = [0u8; 65536];
    let mut out = [0u8; 65536];
    let mut reader = Reader::new(rt.reader(), &mut input);
    let mut writer = Writer::new(&rt, &mut out);
    let mut rooms = Rooms::new();
    serve(&mut reader, &mut writer, &mut rooms);
}
