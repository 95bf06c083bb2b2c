// The kind D of stored cases: two cards side by side, and the second rebuilt from the list.
// What a case and an answer look like is for `cases`; the function answers whether its case was whole.
// A second card that is not rebuilt byte for byte is told in the line, and so differs from the second program's.
#![tactic(auto)]

use std::io;
use std::io::{Read, Write};

// Whether the first card, the list and what the second has make the second.
fn is_rebuilt(table: &[u8], first: &[u8], entries: &[u32], second: &[u8]) -> bool {
    let edition = wire_tables::edition_of(table);
    let other = reader::read(edition, second).content;
    let mut room = [0u8; 256];
    rebuilding::rebuild(edition, first, entries, other, &mut room);
    ground_parts::is_same(&room, second)
}

// What it is, tag and place, in two hex digits each.
fn write_entry<W: Write>(output: &mut W, entry: u32) -> io::Result<()> {
    output.write_all(b" ")?;
    cases::write_hex(
        output,
        &[
            (entry / 65536 % 256) as u8,
            (entry / 256 % 256) as u8,
            (entry % 256) as u8,
        ],
    )
}

// Writes how many entries there are, and each of them; the first 0 ends them.
fn write_entries<W: Write>(output: &mut W, count: u64, entries: &[u32]) -> io::Result<()> {
    cases::write_number(output, count)?;
    for entry in entries.iter().take_while(|entry| **entry != 0) {
        write_entry(output, *entry)?;
    }
    Ok(())
}

fn compare<W: Write>(output: &mut W, table: &[u8], first: &[u8], second: &[u8]) -> io::Result<()> {
    let mut entries = [0xA5A5A5A5u32; 30];
    let answer = kvk::kvk_differences(table, first, second, &mut entries);
    output.write_all(b"D")?;
    cases::write_answer(output, answer)?;
    write_entries(output, answer >> 40, &entries)?;
    // Where this is not so, the line differs from the second program's.
    if answer % 256 == 0 && !is_rebuilt(table, first, &entries, second) {
        output.write_all(b" not rebuilt")?;
    }
    output.write_all(b"\n")
}

// Two cards. Answers whether the case was whole.
pub fn run_differences<R: Read, W: Write>(
    input: &mut R,
    output: &mut W,
    first: &mut [u8],
) -> io::Result<bool> {
    let mut table = [0u8; 103];
    if !cases::get_table(input, &mut table)? {
        return Ok(false);
    }
    let length = cases::get_span(input, first)?;
    if length > first.len() {
        return Ok(false);
    }
    let mut second = [0u8; 600];
    let size = cases::get_span(input, &mut second)?;
    if size > 600 {
        return Ok(false);
    }
    compare(output, &table, &first[..length], &second[..size])?;
    Ok(true)
}
