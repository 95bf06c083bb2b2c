// The parts of an answer, as they are written to the output.
ghost use Rattle.std.specs.Prelude.{◌≡◌, ◌≤◌, length, IfOk};

use crate::parts::{is_filled, value_size};
use std::io;
use std::io::Write;

// Writes each byte as two capital hex digits.
pub fn write_hex<W: Write>(output: &mut W, bytes: &[u8]) -> io::Result<()> {
    for byte in bytes {
        let mut digits = [0u8; 2];
        ground_digits::put_hex(&mut digits, 0, *byte);
        output.write_all(&digits)?;
    }
    Ok(())
}

pub fn write_number<W: Write>(output: &mut W, n: u64) -> io::Result<()> {
    write!(output, " {n}")
}

// Number, place, tag, shortest and longest, each with a blank before it.
pub fn write_answer<W: Write>(output: &mut W, answer: u64) -> io::Result<()> {
    write_number(output, answer % 256)?;
    write_number(output, (answer >> 8) % 256)?;
    output.write_all(b" ")?;
    write_hex(output, &[((answer >> 16) % 256) as u8])?;
    write_number(output, (answer >> 24) % 256)?;
    write_number(output, (answer >> 32) % 256)
}

// Writes a room that held one byte everywhere: `=` if it still does, else all of it.
pub fn write_room<W: Write>(output: &mut W, room: &[u8], fill: u8) -> io::Result<()> {
    output.write_all(b" ")?;
    if is_filled(room, fill) {
        output.write_all(b"=")?;
    } else {
        write_hex(output, room)?;
    }
    Ok(())
}

// How many bytes are another one.
fn count_other(bytes: &[u8], byte: u8) -> u64
    ensures { result ≤ length bytes.now }
{
    bytes.iter().filter(|other| **other != byte).count() as u64
}

// Writes how many bytes are another one.
pub fn write_other<W: Write>(output: &mut W, bytes: &[u8], byte: u8) -> io::Result<()> {
    write_number(output, count_other(bytes, byte))
}

// Writes the first bytes of a room, a sign where there are none, and how many of the others are not the fill.
pub fn write_start<W: Write>(
    output: &mut W,
    room: &[u8],
    length: usize,
    fill: u8,
) -> io::Result<()> {
    output.write_all(b" ")?;
    if length > room.len() {
        return Ok(());
    }
    if length == 0 {
        output.write_all(b"=")?;
    }
    write_hex(output, &room[..length])?;
    write_number(output, count_other(&room[length..], fill))
}

// Writes a slot's length and value, and answers how many bytes behind the value are not 0.
fn write_slot<W: Write>(output: &mut W, slot: &[u8]) -> io::Result<u64>
    requires { length slot.now ≡ 29 }
    ensures { IfOk result (λ behind. behind ≤ 28) }
{
    let end = 1 + value_size(slot);
    output.write_all(b".")?;
    write_hex(output, &slot[..end])?;
    Ok(count_other(&slot[end..], 0))
}

fn write_slots<W: Write>(output: &mut W, content: &[u8]) -> io::Result<()>
    requires { length content.now ≡ 479 }
{
    output.write_all(b" ")?;
    write_hex(output, &content[..14])?;
    let mut behind: u64 = 0;
    for k in 0..16 {
        let at = 14 + k * 29;
        behind += write_slot(output, &content[at..at + 29])?;
    }
    write_number(output, behind)?;
    write_number(output, ground_parts::byte_at(content, 478) as u64)
}

// Writes a record's content, how many bytes behind its values are not 0, and its number.
pub fn write_content<W: Write>(output: &mut W, content: &[u8]) -> io::Result<()> {
    if content.len() == 479 {
        write_slots(output, content)?;
    }
    Ok(())
}
