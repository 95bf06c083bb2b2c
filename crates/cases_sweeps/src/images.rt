// Sweeps of an image.
use crate::digest::fold_reading;
use std::io;
use std::io::{Read, Write};

// The exclusive or of the bytes from address 30 to before the place.
fn sum_before(image: &[u8], place: usize) -> u8 {
    image
        .iter()
        .take(place)
        .skip(30)
        .fold(0, |sum, byte| sum ^ *byte)
}

// Sets the checksum right, if there is one.
fn mend(image: &mut [u8], place: usize) {
    if place > 30 {
        let sum = sum_before(image, place);
        ground_room::put_byte(image, place, sum);
    }
}

// Puts a value at the address and sets the checksum right, unless it is the one that is swept.
fn put_value(image: &mut [u8], address: usize, value: u8, checksum_at: usize) {
    ground_room::put_byte(image, address, value);
    if address != checksum_at {
        mend(image, checksum_at);
    }
}

// Readings with each value at the address; the image comes back as it was but for its checksum.
fn sweep_address(table: &[u8], image: &mut [u8], address: usize, checksum_at: usize) -> u64 {
    let before = ground_parts::byte_at(image, address);
    let mut digest: u64 = 1;
    for value in 0..=255 {
        put_value(image, address, value, checksum_at);
        digest = fold_reading(digest, table, image);
    }
    ground_room::put_byte(image, address, before);
    mend(image, checksum_at);
    digest
}

// A digest for each address.
fn write_sweep<W: Write>(
    output: &mut W,
    table: &[u8],
    image: &mut [u8],
    from: usize,
    until: usize,
    checksum_at: usize,
) -> io::Result<()> {
    for address in from..until.min(image.len()) {
        cases::write_number(output, sweep_address(table, image, address, checksum_at))?;
    }
    Ok(())
}

// A digest for each value at the first address.
fn write_pair_sweep<W: Write>(
    output: &mut W,
    table: &[u8],
    image: &mut [u8],
    first: usize,
    then: usize,
    checksum_at: usize,
) -> io::Result<()> {
    if first >= image.len() || then >= image.len() {
        return Ok(());
    }
    for value in 0..=255 {
        ground_room::put_byte(image, first, value);
        cases::write_number(output, sweep_address(table, image, then, checksum_at))?;
    }
    Ok(())
}

// The letter, and the answer to what is lent, unchanged.
pub(crate) fn write_reading<W: Write>(
    output: &mut W,
    kind: u8,
    table: &[u8],
    image: &[u8],
) -> io::Result<()> {
    let mut record = [0u8; 479];
    output.write_all(&[kind])?;
    cases::write_answer(output, kvk::kvk_read(table, image, &mut record))
}

fn write_digests<W: Write>(
    output: &mut W,
    table: &[u8],
    image: &mut [u8],
    from: usize,
    until: usize,
    checksum_at: usize,
    is_pair: bool,
) -> io::Result<()> {
    if is_pair {
        return write_pair_sweep(output, table, image, from, until, checksum_at);
    }
    write_sweep(output, table, image, from, until, checksum_at)
}

fn sweep_image<R: Read, W: Write>(
    input: &mut R,
    output: &mut W,
    kind: u8,
    table: &[u8],
    image: &mut [u8],
    is_pair: bool,
) -> io::Result<bool> {
    let from = cases::get_length(input)?;
    let until = cases::get_length(input)?;
    let checksum_at = cases::get_length(input)?;
    if from > cases::LONGEST || until > cases::LONGEST || checksum_at > cases::LONGEST {
        return Ok(false);
    }
    write_reading(output, kind, table, image)?;
    write_digests(output, table, image, from, until, checksum_at, is_pair)?;
    output.write_all(b"\n")?;
    Ok(true)
}

fn run_image_sweep<R: Read, W: Write>(
    input: &mut R,
    output: &mut W,
    kind: u8,
    room: &mut [u8],
    is_pair: bool,
) -> io::Result<bool> {
    let mut table = [0u8; 103];
    if !cases::get_table(input, &mut table)? {
        return Ok(false);
    }
    let length = cases::get_span(input, room)?;
    if length > room.len() {
        return Ok(false);
    }
    sweep_image(input, output, kind, &table, &mut room[..length], is_pair)
}

// Each address of a range. Answers whether the case was whole.
pub fn run_sweep<R: Read, W: Write>(
    input: &mut R,
    output: &mut W,
    room: &mut [u8],
) -> io::Result<bool> {
    run_image_sweep(input, output, b'V', room, false)
}

// Two addresses. Answers whether the case was whole.
pub fn run_pair_sweep<R: Read, W: Write>(
    input: &mut R,
    output: &mut W,
    room: &mut [u8],
) -> io::Result<bool> {
    run_image_sweep(input, output, b'M', room, true)
}
