// The kinds K, I, Q, A and B of stored cases: the five calls on a day file.
// What a case and an answer look like is for `cases`; each function answers whether its case was whole.
// A room is lent full of a byte that the case names, so that a byte written by mistake is seen.
#![tactic(auto)]

use std::io;
use std::io::{Read, Write};

const MOST: usize = 4200;

// A line of an answer that has a value.
fn write_value<W: Write>(output: &mut W, kind: u8, answer: u64) -> io::Result<()> {
    output.write_all(&[kind])?;
    cases::write_answer(output, answer)?;
    cases::write_number(output, answer >> 40)
}

// The same, with a room of which so many bytes as the value says are filled where nothing is refused.
fn write_filled<W: Write>(
    output: &mut W,
    kind: u8,
    answer: u64,
    room: &[u8],
    fill: u8,
) -> io::Result<()> {
    write_value(output, kind, answer)?;
    let filled = if answer % 256 == 0 { answer >> 40 } else { 0 };
    cases::write_number(output, filled)?;
    cases::write_start(output, room, filled as usize, fill)?;
    output.write_all(b"\n")
}

// Counting. Answers whether the case was whole.
pub fn run_count<R: Read, W: Write>(input: &mut R, output: &mut W) -> io::Result<bool> {
    let mut file = [0u8; MOST];
    let length = cases::get_span(input, &mut file)?;
    if length > MOST {
        return Ok(false);
    }
    write_value(output, b'K', kvk::kvk_day_count(&file[..length]))?;
    output.write_all(b"\n")?;
    Ok(true)
}

// An image. Answers whether the case was whole.
pub fn run_image<R: Read, W: Write>(input: &mut R, output: &mut W) -> io::Result<bool> {
    let mut file = [0u8; MOST];
    let length = cases::get_span(input, &mut file)?;
    let position = cases::get_length(input)?;
    if length > MOST {
        return Ok(false);
    }
    write_value(
        output,
        b'I',
        kvk::kvk_day_image(&file[..length], position as u64),
    )?;
    output.write_all(b"\n")?;
    Ok(position <= cases::LONGEST)
}

fn find<R: Read, W: Write>(
    input: &mut R,
    output: &mut W,
    file: &[u8],
    room: &mut [u8],
) -> io::Result<bool> {
    let length = cases::get_span(input, room)?;
    if length > room.len() {
        return Ok(false);
    }
    write_value(output, b'Q', kvk::kvk_day_find(file, &room[..length]))?;
    output.write_all(b"\n")?;
    Ok(true)
}

// Finding. Answers whether the case was whole.
pub fn run_find<R: Read, W: Write>(
    input: &mut R,
    output: &mut W,
    room: &mut [u8],
) -> io::Result<bool> {
    let mut file = [0u8; MOST];
    let length = cases::get_span(input, &mut file)?;
    if length > MOST {
        return Ok(false);
    }
    find(input, output, &file[..length], room)
}

// Adds a card in a room that is filled as the case says.
fn add_filled<R: Read, W: Write>(
    input: &mut R,
    output: &mut W,
    file: &[u8],
    card: &[u8],
    room: &mut [u8],
) -> io::Result<bool> {
    let mut fill = [0u8; 1];
    if !cases::get(input, &mut fill)? {
        return Ok(false);
    }
    cases::fill(room, fill[0]);
    let answer = kvk::kvk_day_add(file, card, room);
    write_filled(output, b'A', answer, room, fill[0])?;
    Ok(true)
}

fn add<R: Read, W: Write>(
    input: &mut R,
    output: &mut W,
    file: &[u8],
    card: &[u8],
) -> io::Result<bool> {
    let size = cases::get_length(input)?;
    if size > MOST {
        return Ok(false);
    }
    let mut room = [0u8; MOST];
    add_filled(input, output, file, card, &mut room[..size])
}

fn add_card<R: Read, W: Write>(
    input: &mut R,
    output: &mut W,
    file: &[u8],
    card: &mut [u8],
) -> io::Result<bool> {
    let length = cases::get_span(input, card)?;
    if length > card.len() {
        return Ok(false);
    }
    add(input, output, file, &card[..length])
}

// Adding. Answers whether the case was whole.
pub fn run_add<R: Read, W: Write>(
    input: &mut R,
    output: &mut W,
    card: &mut [u8],
) -> io::Result<bool> {
    let mut file = [0u8; MOST];
    let length = cases::get_span(input, &mut file)?;
    if length > MOST {
        return Ok(false);
    }
    add_card(input, output, &file[..length], card)
}

// Builds a file in a room that is filled as the case says.
fn build_filled<R: Read, W: Write>(
    input: &mut R,
    output: &mut W,
    images: &[u8],
    room: &mut [u8],
) -> io::Result<bool> {
    let mut fill = [0u8; 1];
    if !cases::get(input, &mut fill)? {
        return Ok(false);
    }
    cases::fill(room, fill[0]);
    let answer = kvk::kvk_day_build(images, room);
    write_filled(output, b'B', answer, room, fill[0])?;
    Ok(true)
}

fn build<R: Read, W: Write>(input: &mut R, output: &mut W, images: &[u8]) -> io::Result<bool> {
    let size = cases::get_length(input)?;
    if size > MOST {
        return Ok(false);
    }
    let mut room = [0u8; MOST];
    build_filled(input, output, images, &mut room[..size])
}

// Building. Answers whether the case was whole.
pub fn run_build<R: Read, W: Write>(input: &mut R, output: &mut W) -> io::Result<bool> {
    let mut images = [0u8; MOST];
    let length = cases::get_span(input, &mut images)?;
    if length > MOST {
        return Ok(false);
    }
    build(input, output, &images[..length])
}
