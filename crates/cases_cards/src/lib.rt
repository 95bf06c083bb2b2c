// The kinds R, W and N of stored cases: reading a card, writing one, putting a number on a record.
// What a case and an answer look like is for `cases`; each function answers whether its case was whole.
// A room is lent full of a byte that the case names, so that a byte written by mistake is seen.
#![tactic(auto)]

use std::io;
use std::io::{Read, Write};

// Answers whether the image was whole.
fn read_image<R: Read, W: Write>(
    input: &mut R,
    output: &mut W,
    table: &[u8],
    image: &mut [u8],
) -> io::Result<bool> {
    if !cases::get(input, image)? {
        return Ok(false);
    }
    let mut content = [0xA5u8; 479];
    let answer = kvk::kvk_read(table, image, &mut content);
    output.write_all(b"R")?;
    cases::write_answer(output, answer)?;
    if answer == 0 {
        cases::write_content(output, &content)?;
    } else {
        cases::write_other(output, &content, 0)?;
    }
    output.write_all(b"\n")?;
    Ok(true)
}

// Answers whether the case was whole.
pub fn run_read<R: Read, W: Write>(input: &mut R, output: &mut W) -> io::Result<bool> {
    let mut table = [0u8; 103];
    if !cases::get_table(input, &mut table)? {
        return Ok(false);
    }
    let length = cases::get_length(input)?;
    if length > cases::LONGEST {
        return Ok(false);
    }
    let mut image = [0u8; 600];
    read_image(input, output, &table, &mut image[..length])
}

fn write_image<W: Write>(
    output: &mut W,
    table: &[u8],
    content: &[u8],
    fill: u8,
    buffer: &mut [u8],
) -> io::Result<()> {
    cases::fill(buffer, fill);
    let answer = kvk::kvk_write(table, content, buffer);
    output.write_all(b"W")?;
    cases::write_answer(output, answer)?;
    cases::write_room(output, buffer, fill)?;
    output.write_all(b"\n")
}

// Answers whether the case was whole.
pub fn run_write<R: Read, W: Write>(input: &mut R, output: &mut W) -> io::Result<bool> {
    let mut table = [0u8; 103];
    if !cases::get_table(input, &mut table)? {
        return Ok(false);
    }
    let mut content = [0u8; 479];
    if !cases::get_content(input, &mut content)? {
        return Ok(false);
    }
    let length = cases::get_length(input)?;
    let mut fill = [0u8; 1];
    if length > cases::LONGEST || !cases::get(input, &mut fill)? {
        return Ok(false);
    }
    let mut buffer = [0u8; 600];
    write_image(output, &table, &content, fill[0], &mut buffer[..length])?;
    Ok(true)
}

// Answers whether the case was whole.
pub fn run_renumber<R: Read, W: Write>(input: &mut R, output: &mut W) -> io::Result<bool> {
    let mut table = [0u8; 103];
    if !cases::get_table(input, &mut table)? {
        return Ok(false);
    }
    let mut content = [0u8; 479];
    if !cases::get_content(input, &mut content)? {
        return Ok(false);
    }
    let before = content;
    let answer = kvk::kvk_renumber(&table, &mut content);
    output.write_all(b"N")?;
    cases::write_answer(output, answer)?;
    cases::write_number(output, ground_parts::byte_at(&content, 478) as u64)?;
    // No other byte changes: where one did, this line would differ from the second program's.
    cases::write_number(
        output,
        (ground_parts::count_same(&content, &before) < 478) as u64,
    )?;
    output.write_all(b"\n")?;
    Ok(true)
}
