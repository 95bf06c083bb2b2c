// The kinds S and C of stored cases: the steps of a rewriting, and the check of anyone's steps.
// What a case and an answer look like is for `cases`; the function answers whether its case was whole.
// Of our own plan only what is asked of every plan is told: that it has at most 257 steps and passes the check.
#![tactic(auto)]

use std::io;
use std::io::{Read, Write};

// The check of the first `count` words; 0 where there are not so many.
fn checked(table: &[u8], old: &[u8], new: &[u8], steps: &[u32], count: usize) -> u64 {
    if count > steps.len() {
        return 0;
    }
    kvk::kvk_check_plan(table, old, new, &steps[..count])
}

fn plan<W: Write>(output: &mut W, table: &[u8], old: &[u8], new: &[u8]) -> io::Result<()> {
    let mut steps = [0xA5A5A5A5u32; 257];
    let answer = kvk::kvk_plan(table, old, new, &mut steps);
    output.write_all(b"S")?;
    cases::write_answer(output, answer)?;
    if answer % 256 == 0 {
        cases::write_number(
            output,
            checked(table, old, new, &steps, (answer >> 40) as usize) >> 40,
        )?;
    } else {
        cases::write_number(output, 0)?;
    }
    output.write_all(b"\n")
}

fn check<W: Write>(
    output: &mut W,
    table: &[u8],
    old: &[u8],
    new: &[u8],
    steps: &[u32],
    count: usize,
) -> io::Result<()> {
    let answer = checked(table, old, new, steps, count);
    output.write_all(b"C")?;
    cases::write_answer(output, answer)?;
    cases::write_number(output, answer >> 40)?;
    output.write_all(b"\n")
}

// Fills the head of a room with so many words from the input, and answers whether they were all there.
fn get_words<R: Read>(input: &mut R, room: &mut [u32], count: usize) -> io::Result<bool> {
    for i in 0..count {
        let mut bytes = [0u8; 4];
        if !cases::get(input, &mut bytes)? {
            return Ok(false);
        }
        if i >= room.len() {
            return Ok(false);
        }
        room[i] = cases::word_of(&bytes);
    }
    Ok(true)
}

// The steps of a case. Answers whether the case was whole.
fn run_check<R: Read, W: Write>(
    input: &mut R,
    output: &mut W,
    table: &[u8],
    old: &[u8],
    new: &[u8],
) -> io::Result<bool> {
    let mut steps = [0u32; 300];
    let count = cases::get_length(input)?;
    if !get_words(input, &mut steps, count)? {
        return Ok(false);
    }
    check(output, table, old, new, &steps, count)?;
    Ok(true)
}

// A rewriting, with steps where they are given. Answers whether the case was whole.
pub fn run_rewriting<R: Read, W: Write>(
    input: &mut R,
    output: &mut W,
    old: &mut [u8],
    has_steps: bool,
) -> io::Result<bool> {
    let mut table = [0u8; 103];
    if !cases::get_table(input, &mut table)? {
        return Ok(false);
    }
    let length = cases::get_span(input, old)?;
    if length > old.len() {
        return Ok(false);
    }
    let mut new = [0u8; 600];
    let size = cases::get_span(input, &mut new)?;
    if size > 600 {
        return Ok(false);
    }
    if has_steps {
        return run_check(input, output, &table, &old[..length], &new[..size]);
    }
    plan(output, &table, &old[..length], &new[..size])?;
    Ok(true)
}
