// The kind E of stored cases: whether one table is nested in another.
// What a case and an answer look like is for `cases`; the function answers whether its case was whole.
// A table that is not well formed is a case like any other: its clause is told, and no tag.
#![tactic(auto)]

use std::io;
use std::io::{Read, Write};

fn decide<W: Write>(output: &mut W, inner: &[u8], outer: &[u8]) -> io::Result<()> {
    let answer = kvk::kvk_nested(inner, outer);
    output.write_all(b"E")?;
    cases::write_answer(output, answer)?;
    cases::write_number(output, answer >> 40)?;
    output.write_all(b"\n")
}

// Answers whether the case was whole.
pub fn run_nested<R: Read, W: Write>(input: &mut R, output: &mut W) -> io::Result<bool> {
    let mut inner = [0u8; 103];
    if !cases::get_table(input, &mut inner)? {
        return Ok(false);
    }
    let mut outer = [0u8; 103];
    if !cases::get_table(input, &mut outer)? {
        return Ok(false);
    }
    decide(output, &inner, &outer)?;
    Ok(true)
}
