// The kinds P and H of stored cases: the places of a card's objects, and a host's command.
// What a case and an answer look like is for `cases`; each function answers whether its case was whole.
// A room is lent full of a byte that the case names, so that a byte written by mistake is seen.
#![tactic(auto)]

use std::io;
use std::io::{Read, Write};

// Answers whether the case was whole.
pub fn run_places<R: Read, W: Write>(
    input: &mut R,
    output: &mut W,
    image: &mut [u8],
) -> io::Result<bool> {
    let mut table = [0u8; 103];
    if !cases::get_table(input, &mut table)? {
        return Ok(false);
    }
    let length = cases::get_span(input, image)?;
    if length > image.len() {
        return Ok(false);
    }
    let mut room = [0xA5u8; 32];
    let answer = kvk::kvk_places(&table, &image[..length], &mut room);
    output.write_all(b"P")?;
    cases::write_answer(output, answer)?;
    output.write_all(b" ")?;
    cases::write_hex(output, &room)?;
    output.write_all(b"\n")?;
    Ok(true)
}

// Writes the value, the first so many bytes of a room, and how many of the others are not the fill.
fn write_reply<W: Write>(output: &mut W, answer: u64, room: &[u8], fill: u8) -> io::Result<()> {
    output.write_all(b"H")?;
    cases::write_answer(output, answer)?;
    cases::write_number(output, answer >> 40)?;
    cases::write_start(output, room, (answer >> 40) as usize, fill)?;
    output.write_all(b"\n")
}

fn ask<R: Read, W: Write>(
    input: &mut R,
    output: &mut W,
    table: &[u8],
    image: &[u8],
    command: &[u8],
    room: &mut [u8],
) -> io::Result<bool> {
    let mut fill = [0u8; 1];
    if !cases::get(input, &mut fill)? {
        return Ok(false);
    }
    cases::fill(room, fill[0]);
    let answer = kvk::kvk_host(table, image, command, room);
    write_reply(output, answer, room, fill[0])?;
    Ok(true)
}

// Lends a room of the length that comes next.
fn ask_with_room<R: Read, W: Write>(
    input: &mut R,
    output: &mut W,
    table: &[u8],
    image: &[u8],
    command: &[u8],
) -> io::Result<bool> {
    let length = cases::get_length(input)?;
    if length > cases::LONGEST {
        return Ok(false);
    }
    let mut room = [0u8; 600];
    ask(input, output, table, image, command, &mut room[..length])
}

// Answers whether the case was whole.
pub fn run_host<R: Read, W: Write>(
    input: &mut R,
    output: &mut W,
    image: &mut [u8],
) -> io::Result<bool> {
    let mut table = [0u8; 103];
    if !cases::get_table(input, &mut table)? {
        return Ok(false);
    }
    let length = cases::get_span(input, image)?;
    if length > image.len() {
        return Ok(false);
    }
    let mut command = [0u8; 600];
    let size = cases::get_span(input, &mut command)?;
    if size > 600 {
        return Ok(false);
    }
    ask_with_room(input, output, &table, &image[..length], &command[..size])
}
