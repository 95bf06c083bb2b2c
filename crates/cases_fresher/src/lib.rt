// The kind F of stored cases: the fresher of two cards.
// What a case and an answer look like is for `cases`; the function answers whether its case was whole.
// The room is lent full of a byte that no answer has there, so that one that is left is seen.
#![tactic(auto)]

use std::io;
use std::io::{Read, Write};

fn write_byte<W: Write>(output: &mut W, byte: u8) -> io::Result<()> {
    cases::write_number(output, byte as u64)
}

// The months, below zero where the four bytes are 2^31 or more.
fn write_months<W: Write>(
    output: &mut W,
    high: u8,
    third: u8,
    second: u8,
    low: u8,
) -> io::Result<()> {
    let bits = (high as u64) * (1 << 24)
        + (third as u64) * (1 << 16)
        + (second as u64) * (1 << 8)
        + low as u64;
    if bits < 1 << 31 {
        cases::write_number(output, bits)
    } else {
        write!(output, " -{}", (1 << 32) - bits)
    }
}

fn compare<W: Write>(output: &mut W, table: &[u8], first: &[u8], second: &[u8]) -> io::Result<()> {
    let mut room = [0xA5u8; 8];
    let answer = kvk::kvk_fresher(table, first, second, &mut room);
    output.write_all(b"F")?;
    cases::write_answer(output, answer)?;
    write_byte(output, room[0])?;
    write_byte(output, room[1])?;
    write_byte(output, room[2])?;
    write_months(output, room[4], room[5], room[6], room[7])?;
    output.write_all(b"\n")
}

// Answers whether the case was whole.
pub fn run_fresher<R: Read, W: Write>(
    input: &mut R,
    output: &mut W,
    first: &mut [u8],
) -> io::Result<bool> {
    let mut table = [0u8; 103];
    if !cases::get_table(input, &mut table)? {
        return Ok(false);
    }
    let length = cases::get_span(input, first)?;
    if length > first.len() {
        return Ok(false);
    }
    let mut second = [0u8; 600];
    let size = cases::get_span(input, &mut second)?;
    if size > 600 {
        return Ok(false);
    }
    compare(output, &table, &first[..length], &second[..size])?;
    Ok(true)
}
