// The parts of a case, as they are read from the input. An answer false says that the part is cut off or malformed.
ghost use Rattle.std.specs.Prelude.{◌≡◌, ◌≤◌, length};

use std::io;
use std::io::Read;

pub const LONGEST: usize = 600;

// Fills all of a room from the input.
pub fn get<R: Read>(input: &mut R, room: &mut [u8]) -> io::Result<bool> {
    match input.read_exact(room) {
        Ok(()) => Ok(true),
        Err(e) if e.kind() == io::ErrorKind::UnexpectedEof => Ok(false),
        Err(e) => Err(e),
    }
}

// Fills all of a room with one byte.
pub fn fill(room: &mut [u8], byte: u8) {
    room.fill(byte);
}

pub fn is_filled(room: &[u8], byte: u8) -> bool {
    room.iter().all(|held| *held == byte)
}

// The number that two bytes write, high byte first.
fn number_of(bytes: &[u8]) -> usize
    requires { length bytes.now ≡ 2 }
{
    bytes[0] as usize * 256 + bytes[1] as usize
}

// The word that four bytes write, high byte first.
pub fn word_of(bytes: &[u8]) -> u32 {
    let high = ground_parts::byte_at(bytes, 0) as u32 * 256
        + ground_parts::byte_at(bytes, 1) as u32;
    let low = ground_parts::byte_at(bytes, 2) as u32 * 256 + ground_parts::byte_at(bytes, 3) as u32;
    high * 65536 + low
}

// A length, or one more than LONGEST where there is none.
pub fn get_length<R: Read>(input: &mut R) -> io::Result<usize> {
    let mut bytes = [0u8; 2];
    if !get(input, &mut bytes)? {
        return Ok(LONGEST + 1);
    }
    Ok(number_of(&bytes))
}

// A span into the head of a room: its length, or the largest number where there is none.
pub fn get_span<R: Read>(input: &mut R, room: &mut [u8]) -> io::Result<usize> {
    let length = get_length(input)?;
    if length > room.len() {
        return Ok(usize::MAX);
    }
    if get(input, &mut room[..length])? {
        Ok(length)
    } else {
        Ok(usize::MAX)
    }
}

// The table of a shipped edition by its number, or after a 0 one that is written out.
pub fn get_table<R: Read>(input: &mut R, table: &mut [u8]) -> io::Result<bool> {
    let mut which = [0u8; 1];
    if !get(input, &mut which)? {
        return Ok(false);
    }
    match which[0] {
        0 => get(input, table),
        1 => Ok(kvk::kvk_edition(1, table) == 0),
        2 => Ok(kvk::kvk_edition(2, table) == 0),
        _ => Ok(false),
    }
}

// How many bytes of a slot are the value's, by its first byte.
pub(crate) fn value_size(slot: &[u8]) -> usize
    requires { length slot.now ≡ 29 }
    ensures { result ≤ 28 }
{
    if slot[0] < 28 { slot[0] as usize } else { 28 }
}

// A length and its value, and one byte that stands for all behind it.
fn get_slot<R: Read>(input: &mut R, slot: &mut [u8]) -> io::Result<bool>
    requires { length slot.old ≡ 29 }
{
    if !get(input, &mut slot[..1])? {
        return Ok(false);
    }
    let end = 1 + value_size(slot);
    if !get(input, &mut slot[1..end])? {
        return Ok(false);
    }
    if end == 29 {
        return Ok(true);
    }
    let mut behind = [0u8; 1];
    if !get(input, &mut behind)? {
        return Ok(false);
    }
    fill(&mut slot[end..], behind[0]);
    Ok(true)
}

fn get_slots<R: Read>(input: &mut R, content: &mut [u8]) -> io::Result<bool>
    requires { length content.old ≡ 479 }
{
    if !get(input, &mut content[..14])? {
        return Ok(false);
    }
    for slot in content[14..478].chunks_exact_mut(29) {
        if !get_slot(input, slot)? {
            return Ok(false);
        }
    }
    get(input, &mut content[478..])
}

// A record's 479 bytes.
pub fn get_content<R: Read>(input: &mut R, content: &mut [u8]) -> io::Result<bool> {
    if content.len() != 479 {
        return Ok(false);
    }
    get_slots(input, content)
}
