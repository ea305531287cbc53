// Printing a program: its text in a room that is lent.
#![tactic(auto)]

ghost use Rattle.std.specs.Prelude.{◌≡◌};
ghost use Rattle.rules.specs.Layout.{nodes};
ghost use Rattle.rules.specs.Accepted.{Accepted};
ghost use Rattle.texts.specs.Printer.{print_text};
ghost use Rattle.texts.specs.Calls.{print_fitted, print_call};

use forms::put_text;
use inorder::renumber;
use texts::NoText;
use verdict::judge;

// The text of an accepted program, if it is no longer than the room. It is put twice: first into a room of one byte, which tells its length.
fn print_accepted(p: &[u8], room: &mut [u8], count: usize) -> Result<u32, NoText>
    requires { Accepted p.now × (count ≡ nodes p.now) }
    ensures { (result ≡ (print_fitted (print_text p.now) room.old).answer) × (room.new ≡ (print_fitted (print_text p.now) room.old).room) }
{
    let mut table: [u8; 12288] = [0; 12288];
    renumber(p, &mut table, count);
    let blocks = (count + 41) / 42;
    let q = &table[0..512 * blocks];
    let mut none: [u8; 1] = [0; 1];
    let long = put_text(q, &mut none, count);
    if room.len() < long {
        return Err(NoText::RoomShort);
    }
    put_text(q, room, count);
    Ok(long as u32)
}

// Print a program: the room's front gets its text, and the rest is left. A refusal leaves the room as before.
pub fn print(program: &[u8], room: &mut [u8]) -> Result<u32, NoText>
    ensures { (result ≡ (print_call program.now room.old).answer) × (room.new ≡ (print_call program.now room.old).room) }
{
    let found = judge(program)?;
    print_accepted(program, room, found.count)
}
