// The ten calls for C and Rust: slices and numbers only, the answer in a lent room of twelve numbers (include/couplerfinch.h).
#![tactic(auto)]

ghost use Rattle.std.specs.Prelude.{◌≡◌, [], ◌∷◌};
ghost use Rattle.rules.specs.Calls.{check_call, start_call, run_call};
ghost use Rattle.chains.specs.Explain.{explain_call};
ghost use Rattle.mends.specs.MendCall.{mend_call};
ghost use Rattle.rewritten.specs.TidyCall.{tidy_call};
ghost use Rattle.dropped.specs.PairedCall.{paired_call};
ghost use Rattle.watched.specs.Watch.{watch_call};
ghost use Rattle.texts.specs.Calls.{read_call, print_call};
ghost use Rattle.couplerfinch.specs.Room.{steps_done, refused_room, checked_room, started_room, ran_room, explained_room, mended_room, tidied_room, paired_room, watched_room, read_room, printed_room, checked_code, started_code, ran_code, explained_code, mended_code, tidied_code, paired_code, watched_code, read_code, printed_code};

use chains::{Chain, NoChain};
use dropped::Unpaired;
use mends::Unmended;
use rewritten::Untidied;
use rules::{Checked, Ran, Refusal, Stopped, code_of, place_of};
use texts::{NoTable, NoText};
use watched::ListFault;
use written::TableSize;

// Whole steps done before a refusal.
fn steps_done(code: u32, place: u32) -> u32
    ensures { result ≡ steps_done code place }
{
    if code == 12 {
        return place;
    }
    if code == 13 {
        return place;
    }
    0
}

// Writes the numbers of a run's refusal, and answers its code.
fn put_stopped(code: u32, place: u32, work: u32, wrapped: u32, answer: &mut [u32; 12]) -> u32
    ensures { (result ≡ code) × (answer.new ≡ refused_room (code ∷ place ∷ work ∷ wrapped ∷ [])) }
{
    let steps = steps_done(code, place);
    *answer = [code, place, steps, work, 0, 0, 0, 0, wrapped, 0, 0, 0];
    code
}

// Writes the numbers of another call's refusal, and answers its code.
fn put_refused(code: u32, place: u32, work: u32, answer: &mut [u32; 12]) -> u32
    ensures { (result ≡ code) × (answer.new ≡ refused_room (code ∷ place ∷ work ∷ [])) }
{
    let steps = steps_done(code, place);
    *answer = [code, place, steps, work, 0, 0, 0, 0, 0, 0, 0, 0];
    code
}

// The answer of check, as numbers.
fn put_checked(found: Result<Checked, Refusal>, answer: &mut [u32; 12]) -> u32
    ensures { (result ≡ checked_code found) × (answer.new ≡ checked_room found) }
{
    match found {
        Ok(found) => {
            *answer = [
                0,
                0,
                0,
                0,
                found.nodes,
                found.cells,
                found.bound,
                found.root as u32,
                0,
                0,
                0,
                0,
            ];
            0
        }
        Err(r) => put_refused(code_of(r) as u32, place_of(r), 0, answer),
    }
}

// The answer of start, as numbers.
fn put_started(found: Result<(), Refusal>, answer: &mut [u32; 12]) -> u32
    ensures { (result ≡ started_code found) × (answer.new ≡ started_room found) }
{
    match found {
        Ok(()) => {
            *answer = [0, 0, 0, 0, 0, 0, 0, 0, 0, 0, 0, 0];
            0
        }
        Err(r) => put_refused(code_of(r) as u32, place_of(r), 0, answer),
    }
}

// The answer of run, as numbers.
fn put_ran(found: Result<Ran, Stopped>, answer: &mut [u32; 12]) -> u32
    ensures { (result ≡ ran_code found) × (answer.new ≡ ran_room found) }
{
    match found {
        Ok(ran) => {
            *answer = [0, 0, ran.steps, ran.work, 0, 0, 0, 0, ran.wrapped, 0, 0, 0];
            0
        }
        Err(stop) => put_stopped(
            code_of(stop.why) as u32,
            place_of(stop.why),
            stop.work,
            stop.wrapped,
            answer,
        ),
    }
}

// The answer of explain, as numbers.
fn put_explained(found: Result<Chain, NoChain>, answer: &mut [u32; 12]) -> u32
    ensures { (result ≡ explained_code found) × (answer.new ≡ explained_room found) }
{
    match found {
        Ok(chain) => {
            *answer = [0, 0, 0, 0, 0, 0, 0, 0, 0, 0, chain.entries, chain.of];
            0
        }
        Err(NoChain::Refused(r)) => put_refused(code_of(r) as u32, place_of(r), 0, answer),
        Err(NoChain::NoLet) => put_refused(25, 0, 0, answer),
        Err(NoChain::RoomLength) => put_refused(26, 0, 0, answer),
    }
}

// The answer of mend, as numbers.
fn put_mended(found: Result<u32, Unmended>, answer: &mut [u32; 12]) -> u32
    ensures { (result ≡ mended_code found) × (answer.new ≡ mended_room found) }
{
    match found {
        Ok(entries) => {
            *answer = [0, 0, 0, 0, 0, 0, 0, 0, 0, 0, entries, 0];
            0
        }
        Err(Unmended::Refused(r)) => put_refused(code_of(r) as u32, place_of(r), 0, answer),
        Err(Unmended::ListLength) => put_refused(16, 0, 0, answer),
    }
}

// The answer of tidy, as numbers.
fn put_tidied(found: Result<TableSize, Untidied>, answer: &mut [u32; 12]) -> u32
    ensures { (result ≡ tidied_code found) × (answer.new ≡ tidied_room found) }
{
    match found {
        Ok(size) => {
            *answer = [0, 0, 0, 0, size.nodes, 0, 0, 0, 0, size.bytes, 0, 0];
            0
        }
        Err(Untidied::Refused(r)) => put_refused(code_of(r) as u32, place_of(r), 0, answer),
        Err(Untidied::RoomShort) => put_refused(19, 0, 0, answer),
    }
}

// The answer of paired, as numbers.
fn put_paired(found: Result<(), Unpaired>, answer: &mut [u32; 12]) -> u32
    ensures { (result ≡ paired_code found) × (answer.new ≡ paired_room found) }
{
    match found {
        Ok(()) => {
            *answer = [0, 0, 0, 0, 0, 0, 0, 0, 0, 0, 0, 0];
            0
        }
        Err(Unpaired::OldRefused(r)) => put_refused(code_of(r) as u32, place_of(r), 0, answer),
        Err(Unpaired::NewRefused(r)) => put_refused(32 + code_of(r) as u32, place_of(r), 0, answer),
        Err(Unpaired::EditionsDiffer) => put_refused(29, 0, 0, answer),
        Err(Unpaired::PairingLength) => put_refused(27, 0, 0, answer),
        Err(Unpaired::EntryWrong(i)) => put_refused(28, i, 0, answer),
    }
}

// The answer of watched, as numbers: a run's, or its list's refusal.
fn put_watched(found: Result<Result<Ran, Stopped>, ListFault>, answer: &mut [u32; 12]) -> u32
    ensures { (result ≡ watched_code found) × (answer.new ≡ watched_room found) }
{
    match found {
        Ok(ran) => put_ran(ran, answer),
        Err(ListFault::ListLength) => put_stopped(17, 0, 0, 65535, answer),
        Err(ListFault::ListEntry(j)) => put_stopped(18, j, 0, 65535, answer),
    }
}

// The answer of read, as numbers.
fn put_read(found: Result<TableSize, NoTable>, answer: &mut [u32; 12]) -> u32
    ensures { (result ≡ read_code found) × (answer.new ≡ read_room found) }
{
    match found {
        Ok(size) => {
            *answer = [0, 0, 0, 0, size.nodes, 0, 0, 0, 0, size.bytes, 0, 0];
            0
        }
        Err(NoTable::BadWord(at)) => put_refused(21, at, 0, answer),
        Err(NoTable::BadName(at)) => put_refused(22, at, 0, answer),
        Err(NoTable::BadNumber(at)) => put_refused(23, at, 0, answer),
        Err(NoTable::RoomShort) => put_refused(24, 0, 0, answer),
        Err(NoTable::Refused(r)) => put_refused(code_of(r) as u32, place_of(r), 0, answer),
    }
}

// The answer of print, as numbers.
fn put_printed(found: Result<u32, NoText>, answer: &mut [u32; 12]) -> u32
    ensures { (result ≡ printed_code found) × (answer.new ≡ printed_room found) }
{
    match found {
        Ok(length) => {
            *answer = [0, 0, 0, 0, 0, 0, 0, 0, 0, length, 0, 0];
            0
        }
        Err(NoText::Refused(r)) => put_refused(code_of(r) as u32, place_of(r), 0, answer),
        Err(NoText::RoomShort) => put_refused(24, 0, 0, answer),
    }
}

// Checks a program.
#[unsafe(no_mangle)]
pub extern "C" fn couplerfinch_check(program: &[u8], answer: &mut [u32; 12]) -> u32
    ensures { (result ≡ checked_code (check_call program.now)) × (answer.new ≡ checked_room (check_call program.now)) }
{
    put_checked(watch::check(program), answer)
}

// Starts a state.
#[unsafe(no_mangle)]
pub extern "C" fn couplerfinch_start(
    program: &[u8],
    state: &mut [u8],
    answer: &mut [u32; 12],
) -> u32
    ensures { (result ≡ started_code (start_call program.now state.old).answer) × (answer.new ≡ started_room (start_call program.now state.old).answer) × (state.new ≡ (start_call program.now state.old).state) }
{
    put_started(watch::start(program, state), answer)
}

// Makes a step for each record.
#[unsafe(no_mangle)]
pub extern "C" fn couplerfinch_run(
    program: &[u8],
    state: &mut [u8],
    records: &[u8],
    output: &mut [u8],
    answer: &mut [u32; 12],
) -> u32
    ensures { (result ≡ ran_code (run_call program.now state.old records.now output.old).answer) × (answer.new ≡ ran_room (run_call program.now state.old records.now output.old).answer) × (state.new ≡ (run_call program.now state.old records.now output.old).state) × (output.new ≡ (run_call program.now state.old records.now output.old).output) }
{
    put_ran(watch::run(program, state, records, output), answer)
}

// Explains why a program is not ready.
#[unsafe(no_mangle)]
pub extern "C" fn couplerfinch_explain(
    program: &[u8],
    room: &mut [u16],
    answer: &mut [u32; 12],
) -> u32
    ensures { (result ≡ explained_code (explain_call program.now room.old).answer) × (answer.new ≡ explained_room (explain_call program.now room.old).answer) × (room.new ≡ (explain_call program.now room.old).room) }
{
    put_explained(explain::explain(program, room), answer)
}

// Brings a state back.
#[unsafe(no_mangle)]
pub extern "C" fn couplerfinch_mend(
    program: &[u8],
    state: &mut [u8],
    list: &mut [u16],
    answer: &mut [u32; 12],
) -> u32
    ensures { (result ≡ mended_code (mend_call program.now state.old list.old).answer) × (answer.new ≡ mended_room (mend_call program.now state.old list.old).answer) × (state.new ≡ (mend_call program.now state.old list.old).state) × (list.new ≡ (mend_call program.now state.old list.old).list) }
{
    put_mended(mend::mend(program, state, list), answer)
}

// Tidies a table.
#[unsafe(no_mangle)]
pub extern "C" fn couplerfinch_tidy(program: &[u8], room: &mut [u8], answer: &mut [u32; 12]) -> u32
    ensures { (result ≡ tidied_code (tidy_call program.now room.old).answer) × (answer.new ≡ tidied_room (tidy_call program.now room.old).answer) × (room.new ≡ (tidy_call program.now room.old).room) }
{
    put_tidied(tidy::tidy(program, room), answer)
}

// Judges a table that another yard tidied, by its pairing.
#[unsafe(no_mangle)]
pub extern "C" fn couplerfinch_paired(
    old: &[u8],
    new: &[u8],
    pairing: &[u16],
    answer: &mut [u32; 12],
) -> u32
    ensures { (result ≡ paired_code (paired_call old.now new.now pairing.now)) × (answer.new ≡ paired_room (paired_call old.now new.now pairing.now)) }
{
    put_paired(pairing::paired(old, new, pairing), answer)
}

// Makes a step for each record, and writes down what listed nodes give.
#[unsafe(no_mangle)]
pub extern "C" fn couplerfinch_watch(
    program: &[u8],
    state: &mut [u8],
    records: &[u8],
    list: &[u16],
    output: &mut [u8],
    shown: &mut [u8],
    answer: &mut [u32; 12],
) -> u32
    ensures { (result ≡ watched_code (watch_call program.now state.old records.now list.now output.old shown.old).answer) × (answer.new ≡ watched_room (watch_call program.now state.old records.now list.now output.old shown.old).answer) × (state.new ≡ (watch_call program.now state.old records.now list.now output.old shown.old).state) × (output.new ≡ (watch_call program.now state.old records.now list.now output.old shown.old).output) × (shown.new ≡ (watch_call program.now state.old records.now list.now output.old shown.old).room) }
{
    put_watched(
        peeking::watched(program, state, records, list, output, shown),
        answer,
    )
}

// Reads a table as it is typed.
#[unsafe(no_mangle)]
pub extern "C" fn couplerfinch_read(text: &[u8], room: &mut [u8], answer: &mut [u32; 12]) -> u32
    ensures { (result ≡ read_code (read_call text.now room.old).answer) × (answer.new ≡ read_room (read_call text.now room.old).answer) × (room.new ≡ (read_call text.now room.old).room) }
{
    put_read(reading::read(text, room), answer)
}

// Prints a program as text.
#[unsafe(no_mangle)]
pub extern "C" fn couplerfinch_print(program: &[u8], room: &mut [u8], answer: &mut [u32; 12]) -> u32
    ensures { (result ≡ printed_code (print_call program.now room.old).answer) × (answer.new ≡ printed_room (print_call program.now room.old).answer) × (room.new ≡ (print_call program.now room.old).room) }
{
    put_printed(typeset::print(program, room), answer)
}
