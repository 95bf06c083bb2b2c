// The kinds G and U of stored cases: the tree of a foreign card, and writing it back.
// What a case and an answer look like is for `cases`; each function answers whether its case was whole.
// A room is lent full of a byte that the case names, so that what is written by mistake is seen.
#![tactic(auto)]

ghost use Rattle.std.specs.Prelude.{◌≤◌, length};

use std::io;
use std::io::{Read, Write};

const LONGEST: usize = 4200;

// Writes each word as four capital hex digits.
fn write_words<W: Write>(output: &mut W, words: &[u16]) -> io::Result<()> {
    for word in words {
        cases::write_hex(output, &[(*word / 256) as u8, (*word % 256) as u8])?;
    }
    Ok(())
}

fn count_other_words(words: &[u16], word: u16) -> u64
    ensures { result ≤ length words.now }
{
    let mut count: u64 = 0;
    for other in words {
        if *other != word {
            count += 1;
        }
    }
    count
}

// How much of a room was filled that has this size: what the answer says, and with a refusal nothing.
fn filled(answer: u64, count: u64, size: usize) -> usize
    ensures { result ≤ size }
{
    if answer % 256 != 0 {
        return 0;
    }
    if count > size as u64 {
        return size;
    }
    count as usize
}

// Writes the words that were filled, and how many of those behind them are not this word.
fn write_filled_words<W: Write>(
    output: &mut W,
    room: &[u16],
    end: usize,
    word: u16,
) -> io::Result<()> {
    if end > room.len() {
        return Ok(());
    }
    output.write_all(b" ")?;
    if end == 0 {
        output.write_all(b"=")?;
    }
    write_words(output, &room[..end])?;
    cases::write_number(output, count_other_words(&room[end..], word))
}

fn list_tree<W: Write>(
    output: &mut W,
    bytes: &[u8],
    room: &mut [u16],
    word: u16,
) -> io::Result<()> {
    let answer = kvk::kvk_tree(bytes, room);
    output.write_all(b"G")?;
    cases::write_answer(output, answer)?;
    cases::write_number(output, answer >> 40)?;
    write_filled_words(
        output,
        room,
        filled(answer, (answer >> 40) * 4, room.len()),
        word,
    )?;
    output.write_all(b"\n")
}

// Lists into a room of so many words, each of them the fill twice.
fn list_filled<W: Write>(output: &mut W, bytes: &[u8], words: usize, fill: u8) -> io::Result<()>
    requires { words ≤ 4200 }
{
    let word = fill as u16 * 257;
    let mut room = [word; LONGEST];
    list_tree(output, bytes, &mut room[..words], word)
}

// A listing.
pub fn run_tree<R: Read, W: Write>(input: &mut R, output: &mut W) -> io::Result<bool> {
    let mut bytes = [0u8; LONGEST];
    let length = cases::get_span(input, &mut bytes)?;
    if length > LONGEST {
        return Ok(false);
    }
    let words = cases::get_length(input)?;
    let mut fill = [0u8; 1];
    if words > LONGEST || !cases::get(input, &mut fill)? {
        return Ok(false);
    }
    list_filled(output, &bytes[..length], words, fill[0])?;
    Ok(true)
}

// The words that bytes write, high byte first.
fn words_of(bytes: &[u8]) -> [u16; 2100] {
    let mut words = [0u16; 2100];
    for (i, word) in words.iter_mut().enumerate() {
        *word = ground_parts::byte_at(bytes, i * 2) as u16 * 256
            + ground_parts::byte_at(bytes, i * 2 + 1) as u16;
    }
    words
}

fn write_tree<W: Write>(
    output: &mut W,
    words: &[u16],
    values: &[u8],
    room: &mut [u8],
    fill: u8,
) -> io::Result<()> {
    cases::fill(room, fill);
    let answer = kvk::kvk_tree_write(words, values, room);
    output.write_all(b"U")?;
    cases::write_answer(output, answer)?;
    let end = filled(answer, answer >> 40, room.len());
    cases::write_number(output, end as u64)?;
    cases::write_start(output, room, end, fill)?;
    output.write_all(b"\n")
}

// The rest of a case of writing back: values, room and fill.
fn write_tree_of<R: Read, W: Write>(
    input: &mut R,
    output: &mut W,
    words: &[u16],
) -> io::Result<bool> {
    let mut values = [0u8; LONGEST];
    let length = cases::get_span(input, &mut values)?;
    if length > LONGEST {
        return Ok(false);
    }
    let size = cases::get_length(input)?;
    let mut fill = [0u8; 1];
    if size > LONGEST || !cases::get(input, &mut fill)? {
        return Ok(false);
    }
    let mut room = [0u8; LONGEST];
    write_tree(output, words, &values[..length], &mut room[..size], fill[0])?;
    Ok(true)
}

// Writing back.
pub fn run_tree_write<R: Read, W: Write>(input: &mut R, output: &mut W) -> io::Result<bool> {
    let mut bytes = [0u8; LONGEST];
    let length = cases::get_span(input, &mut bytes)?;
    if length > LONGEST {
        return Ok(false);
    }
    let words = words_of(&bytes[..length]);
    write_tree_of(input, output, &words[..length / 2])
}
