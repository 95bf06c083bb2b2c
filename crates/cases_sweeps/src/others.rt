// Sweeps of a record and of an edition's table.
use crate::digest::{fold_call, fold_reading};
use crate::images::write_reading;
use std::io;
use std::io::{Read, Write};

// A writing, with the image that it leaves.
fn fold_writing(digest: u64, table: &[u8], record: &[u8]) -> u64 {
    let mut image = [0xA5u8; 256];
    let answer = kvk::kvk_write(table, record, &mut image);
    fold_call(digest, answer, &image)
}

// Writings with each value at the index; the record comes back as it was.
fn sweep_index(table: &[u8], record: &mut [u8], index: usize) -> u64 {
    let before = ground_parts::byte_at(record, index);
    let mut digest: u64 = 1;
    for value in 0..=255 {
        ground_room::put_byte(record, index, value);
        digest = fold_writing(digest, table, record);
    }
    ground_room::put_byte(record, index, before);
    digest
}

// Readings with each value at the index of the table; the table comes back as it was.
fn sweep_table(table: &mut [u8], index: usize, image: &[u8]) -> u64 {
    let before = ground_parts::byte_at(table, index);
    let mut digest: u64 = 1;
    for value in 0..=255 {
        ground_room::put_byte(table, index, value);
        digest = fold_reading(digest, table, image);
    }
    ground_room::put_byte(table, index, before);
    digest
}

// A digest for each index of the record.
fn write_record_sweep<W: Write>(
    output: &mut W,
    table: &[u8],
    record: &mut [u8],
    from: usize,
    until: usize,
) -> io::Result<()> {
    let mut image = [0u8; 256];
    output.write_all(b"O")?;
    cases::write_answer(output, kvk::kvk_write(table, record, &mut image))?;
    for index in from..until.min(record.len()) {
        cases::write_number(output, sweep_index(table, record, index))?;
    }
    output.write_all(b"\n")
}

// A digest for each index of the table, and one of the table as it is.
fn write_table_sweep<W: Write>(output: &mut W, table: &mut [u8], image: &[u8]) -> io::Result<()> {
    write_reading(output, b'X', table, image)?;
    let size = table.len();
    for index in 0..size {
        cases::write_number(output, sweep_table(table, index, image))?;
    }
    cases::write_number(output, fold_call(1, 0, table))?;
    output.write_all(b"\n")
}

// A record. Answers whether the case was whole.
pub fn run_record_sweep<R: Read, W: Write>(input: &mut R, output: &mut W) -> io::Result<bool> {
    let mut table = [0u8; 103];
    if !cases::get_table(input, &mut table)? {
        return Ok(false);
    }
    let mut record = [0u8; 479];
    if !cases::get_content(input, &mut record)? {
        return Ok(false);
    }
    let from = cases::get_length(input)?;
    let until = cases::get_length(input)?;
    if from > cases::LONGEST || until > cases::LONGEST {
        return Ok(false);
    }
    write_record_sweep(output, &table, &mut record, from, until)?;
    Ok(true)
}

// A table. Answers whether the case was whole.
pub fn run_table_sweep<R: Read, W: Write>(
    input: &mut R,
    output: &mut W,
    room: &mut [u8],
) -> io::Result<bool> {
    let mut table = [0u8; 103];
    if !cases::get_table(input, &mut table)? {
        return Ok(false);
    }
    let length = cases::get_span(input, room)?;
    if length > room.len() {
        return Ok(false);
    }
    write_table_sweep(output, &mut table, &room[..length])?;
    Ok(true)
}
