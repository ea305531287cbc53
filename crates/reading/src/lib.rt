// Reading a text: its rows, their blocks, and the calls.
#![tactic(auto)]

ghost use Rattle.std.specs.Prelude.{◌≡◌, ◌≤◌, ◌<◌, min, length};
ghost use Rattle.rules.specs.Bytes.{write_at};
ghost use Rattle.rules.specs.Calls.{program_verdict};
ghost use Rattle.texts.specs.Tokens.{tokens, from};
ghost use Rattle.texts.specs.Rows.{Sofar, at_start};
ghost use Rattle.texts.specs.Reader as R;
ghost use Rattle.texts.specs.Calls.{last_position, unread_answer, read_checked, read_call};
ghost use Rattle.phrases.specs.Gave.{gave, number, Below};
ghost use Rattle.reading.specs.Given.{Fresh, RowsOf, BlocksOf};
ghost use Rattle.reading.specs.Position.{node_position};

use labels::note_branches;
use phrases::Read;
use reader::{node, stop_of};
use rules::Field;
use sealing::put_blocks;
use spell::edition_named;
use texts::{NoTable, Unread};
use tokens::{first_word, word_from};
use verdict::judge;
use written::TableSize;

// The first word is the edition.
fn title(text: &[u8]) -> Result<Read<usize>, Unread>
    ensures { (gave number text.now at_start result ≡ R.title (length text.now) (tokens text.now) at_start) × Below 256 result }
{
    match first_word(text) {
        None => Err(Unread::Word(text.len())),
        Some(w) => {
            let named = edition_named(&text[w.first..w.end]);
            match named {
                Some(e) => Ok(Read {
                    value: e as usize,
                    behind: w.end,
                }),
                None => Err(Unread::Word(w.first)),
            }
        }
    }
}

// Nothing stands behind the last parenthesis.
fn ended(text: &[u8], edition: usize, at: usize) -> Result<Read<usize>, Unread>
    requires { edition < 256 }
    ensures { ((so : Sofar) → gave number text.now so result ≡ R.ended edition (from text.now at) so) × Below 256 result }
{
    match word_from(text, at) {
        None => Ok(Read {
            value: edition,
            behind: at,
        }),
        Some(w) => Err(Unread::Word(w.first)),
    }
}

// A whole text, its edition and one signal, as rows. (Rows and names stand in arrays of the largest size: no call has a heap.)
fn read_rows(text: &[u8], rows: &mut [usize; 13118]) -> Result<Read<usize>, Unread>
    requires { Fresh rows.old }
    ensures { RowsOf text.now rows.new result }
{
    let mut known: [usize; 2017] = [0; 2017];
    let mut names: [usize; 4034] = [0; 4034];
    note_branches(text, &mut known);
    let t = title(text)?;
    rows[2] = t.behind;
    if node(&text, &known, rows, &mut names, 1009, Field::Signal) == 0 {
        return Err(stop_of(rows));
    }
    ended(text, t.value, rows[2])
}

// A position as a number of 32 bits; a later one as the last.
fn capped(at: usize) -> u32
    ensures { result ≡ min at last_position }
{
    if at < 4294967295 {
        return at as u32;
    }
    4294967295
}

fn unread(why: Unread) -> Result<TableSize, NoTable>
    ensures { result ≡ unread_answer why }
{
    match why {
        Unread::Word(at) => Err(NoTable::BadWord(capped(at))),
        Unread::Name(at) => Err(NoTable::BadName(capped(at))),
        Unread::Range(at) => Err(NoTable::BadNumber(capped(at))),
    }
}

// The length of a text's blocks, which stand at the front of the result; or why the text is not read.
fn built(text: &[u8], res: &mut [u8]) -> Result<usize, Unread>
    requires { 12288 ≤ length res.old }
    ensures { BlocksOf text.now res.old res.new result }
{
    let mut rows: [usize; 13118] = [0; 13118];
    let r = read_rows(text, &mut rows)?;
    let n = put_blocks(text, &rows, r.value, res);
    Ok(n)
}

// The result at the room's front.
fn copy(res: &[u8], room: &mut [u8])
    requires { length res.now ≤ length room.old }
    ensures { room.new ≡ write_at room.old 0 res.now }
{
    room[..res.len()].copy_from_slice(res);
}

// The check's codes on the result; if there is none, the result stands at the room's front.
fn judged(res: &[u8], room: &mut [u8]) -> Result<TableSize, NoTable>
    requires { (length res.now ≤ length room.old) × (length res.now ≤ 12288) }
    ensures { (result ≡ (read_checked (program_verdict res.now) res.now room.old).answer) × (room.new ≡ (read_checked (program_verdict res.now) res.now room.old).room) }
{
    let found = judge(res)?;
    copy(res, room);
    Ok(TableSize {
        nodes: found.count as u32,
        bytes: res.len() as u32,
    })
}

// Reads a text into the first blocks of a room; the rest is left. A refusal leaves the room as before.
pub fn read(text: &[u8], room: &mut [u8]) -> Result<TableSize, NoTable>
    ensures { (result ≡ (read_call text.now room.old).answer) × (room.new ≡ (read_call text.now room.old).room) }
{
    let mut result: [u8; 12288] = [0; 12288];
    match built(text, &mut result) {
        Err(why) => unread(why),
        Ok(n) => {
            if room.len() < n {
                return Err(NoTable::RoomShort);
            }
            judged(&result[..n], room)
        }
    }
}

// Where in a text that is read the node of a number begins.
pub fn node_position(text: &[u8], node: usize) -> Option<u32>
    ensures { result ≡ node_position text.now node }
{
    let mut rows: [usize; 13118] = [0; 13118];
    match read_rows(text, &mut rows) {
        Err(why) => None,
        Ok(r) => {
            if node < rows[1] {
                return Some(capped(rows[13 * node + 26]));
            }
            None
        }
    }
}
