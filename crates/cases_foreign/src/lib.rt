// The kind L of stored cases: the length field of a foreign card.
// What a case and an answer look like is for `cases`; the function answers whether its case was whole.
// The room is the caller's, so that one room serves all kinds.
#![tactic(auto)]

use std::io;
use std::io::{Read, Write};

// A length field. Answers whether the case was whole.
pub fn run_length<R: Read, W: Write>(
    input: &mut R,
    output: &mut W,
    room: &mut [u8],
) -> io::Result<bool> {
    let length = cases::get_span(input, room)?;
    if length > room.len() {
        return Ok(false);
    }
    let answer = kvk::kvk_length(&room[..length]);
    output.write_all(b"L")?;
    cases::write_answer(output, answer)?;
    cases::write_number(output, (answer >> 40) % 65536)?;
    cases::write_number(output, answer >> 56)?;
    output.write_all(b"\n")?;
    Ok(true)
}
