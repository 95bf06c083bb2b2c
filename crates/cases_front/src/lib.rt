// The kind T of stored cases: the printed front of a record.
// What a case and an answer look like is for `cases`; the function answers whether its case was whole.
// The room is lent full of a byte that the case names, so that a byte written by mistake is seen.
#![tactic(auto)]

use std::io;
use std::io::{Read, Write};

fn print_front<W: Write>(
    output: &mut W,
    content: &[u8],
    fund: usize,
    fill: u8,
    room: &mut [u8],
) -> io::Result<()> {
    cases::fill(room, fill);
    let answer = kvk::kvk_front(content, fund as u64, room);
    output.write_all(b"T")?;
    cases::write_answer(output, answer)?;
    cases::write_room(output, room, fill)?;
    output.write_all(b"\n")
}

// The front of a record. Answers whether the case was whole.
pub fn run_front<R: Read, W: Write>(input: &mut R, output: &mut W) -> io::Result<bool> {
    let mut content = [0u8; 479];
    if !cases::get_content(input, &mut content)? {
        return Ok(false);
    }
    let fund = cases::get_length(input)?;
    if fund > cases::LONGEST {
        return Ok(false);
    }
    let length = cases::get_length(input)?;
    let mut fill = [0u8; 1];
    if length > cases::LONGEST || !cases::get(input, &mut fill)? {
        return Ok(false);
    }
    let mut room = [0u8; 600];
    print_front(output, &content, fund, fill[0], &mut room[..length])?;
    Ok(true)
}
