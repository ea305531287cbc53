// Numbers of 16 bits as bytes, as a file has them: two for each, the low one first.
ghost use Rattle.std.specs.Prelude.{◌+◌, ◌*◌, ◌/◌, ◌%◌, ◌≡◌, ◌∷◌, []};
ghost use Rattle.feed.specs.Entries.{Fitting, Taken, Given};

// Two bytes as a number.
fn entry(low: u8, high: u8) -> u16
    ensures { result ≡ low + 256 * high }
{
    u16::from_le_bytes([low, high])
}

// The two bytes of a number.
fn both(n: u16) -> [u8; 2]
    ensures { result ≡ n % 256 ∷ n / 256 ∷ [] }
{
    n.to_le_bytes()
}

// Puts the entries that bytes hold at the start of a room, as many as it has room for, and answers how many.
pub fn take_entries(bytes: &[u8], room: &mut [u16]) -> usize
    ensures { Fitting room.new bytes.now result × Taken bytes.now room.old room.new result }
{
    let n = room.len().min(bytes.len() / 2);
    for k in 0..n {
        room[k] = entry(bytes[2 * k], bytes[2 * k + 1]);
    }
    n
}

// Puts the bytes of the entries of a room at the start of bytes, as many as there is room for, and answers how many entries.
pub fn give_entries(room: &[u16], bytes: &mut [u8]) -> usize
    ensures { Fitting room.now bytes.new result × Given room.now bytes.old bytes.new result }
{
    let n = room.len().min(bytes.len() / 2);
    for k in 0..n {
        let pair = both(room[k]);
        bytes[2 * k] = pair[0];
        bytes[2 * k + 1] = pair[1];
    }
    n
}
