// The kind Z of stored cases: calls that are lent tables, records and rooms of other sizes than theirs.
// What a case and an answer look like is for `cases`; the function answers whether its case was whole.
// Where a call only reads a record, the room is lent as that record, and stays as it was.
#![tactic(auto)]

use std::io;
use std::io::{Read, Write};

// Writing and printing, which read a record.
fn call_with_record(call: usize, table: &[u8], record: &[u8]) -> u64 {
    let mut image = [0u8; 256];
    if call == 2 {
        return kvk::kvk_write(table, record, &mut image);
    }
    kvk::kvk_front(record, table.len() as u64, &mut image[..112])
}

// Differences and plans, which fill words.
fn call_with_words(call: usize, table: &[u8], size: usize) -> u64 {
    let image = [0u8; 256];
    let mut words = [0u32; 600];
    if size > 600 {
        return 0;
    }
    if call == 7 {
        return kvk::kvk_differences(table, &image, &image, &mut words[..size]);
    }
    kvk::kvk_plan(table, &image, &image, &mut words[..size])
}

// The calls that fill bytes, and the others.
fn call_with_bytes(call: usize, table: &[u8], room: &mut [u8]) -> u64 {
    let image = [0u8; 256];
    match call {
        0 => kvk::kvk_edition(table.len() as u64, room),
        1 => kvk::kvk_read(table, &image, room),
        3 => kvk::kvk_renumber(table, room),
        4 => kvk::kvk_places(table, &image, room),
        5 => kvk::kvk_fresher(table, &image, &image, room),
        _ => call_with_record(call, table, room),
    }
}

fn call_with(call: usize, table: &[u8], room: &mut [u8]) -> u64 {
    if call >= 7 {
        return call_with_words(call, table, room.len());
    }
    call_with_bytes(call, table, room)
}

// Terminal's table at the start, if there is room for it.
fn put_terminal(table: &mut [u8]) {
    let mut terminal = [0u8; 103];
    kvk::kvk_edition(1, &mut terminal);
    ground_room::put(table, 0, &terminal);
}

// Writes the answer and the room.
fn write_call<W: Write>(
    output: &mut W,
    call: usize,
    table: &mut [u8],
    room: &mut [u8],
) -> io::Result<()> {
    put_terminal(table);
    output.write_all(b"Z")?;
    cases::write_answer(output, call_with(call, table, room))?;
    cases::write_room(output, room, 0xA5)?;
    output.write_all(b"\n")
}

fn write_sizes<W: Write>(
    output: &mut W,
    call: usize,
    table: &mut [u8],
    room_size: usize,
) -> io::Result<bool> {
    let mut room = [0xA5u8; 600];
    if room_size > 600 {
        return Ok(false);
    }
    write_call(output, call, table, &mut room[..room_size])?;
    Ok(true)
}

// Answers whether the case was whole.
pub fn run_sizes<R: Read, W: Write>(input: &mut R, output: &mut W) -> io::Result<bool> {
    let call = cases::get_length(input)?;
    let table_size = cases::get_length(input)?;
    let room_size = cases::get_length(input)?;
    let mut table = [0u8; 600];
    if table_size > 600 {
        return Ok(false);
    }
    write_sizes(output, call, &mut table[..table_size], room_size)
}
