// Bytes from a file or from standard input, and to one of the streams that are written.
// A read or write that fails ends what is read or written: how much was read is told, and whether all was written.
ghost use Rattle.std.specs.Prelude.{◌≡◌, ◌≤◌, length, take};

use std::io::{Read, Result};

// What is read: standard input, or a file by its name.
#[derive(Drop)]
pub enum Source<I, F> {
    Standard(I),
    Named(F),
}

impl<I: Read, F: Read> Read for Source<I, F> {
    fn read(&mut self, buf: &mut [u8]) -> Result<usize> {
        match self {
            Source::Standard(input) => input.read(buf),
            Source::Named(file) => file.read(buf),
        }
    }
}

// Reads once; 0 where that fails.
fn read_some<S: Read>(source: &mut S, room: &mut [u8]) -> usize
    ensures { result ≤ length room.new }
{
    match source.read(room) {
        Ok(count) => count,
        Err(_) => 0,
    }
}

// Reads until the room is full, the input ends or a read fails. Answers how many bytes it put at the start of the room.
pub fn read_full<S: Read>(source: &mut S, room: &mut [u8]) -> usize
    ensures bound { result ≤ length room.new }
    ensures taken { result ≡ length (take result room.new) }
{
    let mut done = 0;
    while done < room.len() {
        let count = read_some(source, &mut room[done..]);
        if count == 0 {
            return done;
        }
        done += count;
    }
    done
}

// Writes all of some bytes, and answers whether it did.
pub fn write_all<P: Print>(to: &P, bytes: &[u8]) -> bool {
    to.write_all(bytes).is_ok()
}

// Writes a number in decimal, and answers whether it did.
pub fn print_decimal<P: Print>(to: &P, n: u64) -> bool {
    to.print(n).is_ok()
}
