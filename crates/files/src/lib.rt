// What programs share: a file opened by its name, a file written all or nothing, an edition by its name, and the one that a listing is read under.
// Which words the command line has, and what is read or written, is the caller's. What fails is said on standard error, by its name.
// "-" names standard input and standard output; a file that is written appears whole under its name, or not at all, even where the plug is pulled.
#![tactic(auto)]

mod arguments;
mod beside;
mod failures;
mod reach;
mod streams;
mod words;

pub use arguments::{arg, arg_count};
pub use reach::Outside;
use std::fs::File;
use std::io::{Error, ErrorKind};
use std::rt::Files;
use std::{io, str};
pub use streams::{Source, print_decimal, read_full, write_all};
pub use words::{choose, edition_named};

// Linux's number of the error that a name is too long.
const TOO_LONG: i32 = 36;

// The name of a file as text, which it has to be.
fn name_of(path: &[u8]) -> io::Result<&str> {
    match str::from_utf8(path) {
        Ok(name) => Ok(name),
        Err(_) => Err(Error::new(ErrorKind::InvalidFilename, "the name is no text in UTF-8")),
    }
}

fn open_named<R: Files>(rt: &R, path: &[u8]) -> io::Result<R::File> {
    File::open(rt, name_of(path)?)
}

// Opens a file to be read, if it can be.
pub fn open<R: Outside>(rt: &R, path: &[u8]) -> Option<Source<R::Reader, R::File>> {
    if ground_parts::is_same(path, b"-") {
        return Some(Source::Standard(rt.reader()));
    }
    match open_named(rt, path) {
        Ok(file) => Some(Source::Named(file)),
        Err(error) => {
            failures::fail(&rt.stderr(), path, error);
            None
        }
    }
}

// Writes a file by way of one that is made beside it, whose name has 7 bytes more.
fn write_beside<R: Outside>(rt: &R, path: &[u8], bytes: &[u8]) -> io::Result<()> {
    let mut room = [0u8; 4096];
    let start = ground_room::put(&mut room, 0, path);
    let end = ground_room::put(&mut room, start, b".XXXXXX");
    if end != path.len() + 7 {
        return Err(Error::from_raw_os_error(TOO_LONG));
    }
    if end > 4096 {
        return Err(Error::from_raw_os_error(TOO_LONG));
    }
    write_new(rt, &mut room[..end], path, bytes)
}

// Makes a file by a name of its own, writes it, and gives it its name when all of it is on its device.
// A fault that stands: it goes on to the name also where writing failed, and only then says so (docs/PORT.md).
fn write_new<R: Outside>(rt: &R, name: &mut [u8], path: &[u8], bytes: &[u8]) -> io::Result<()> {
    let file = beside::make_new(rt, name)?;
    let filled = beside::fill(file, bytes);
    let named = beside::rename(rt, name, path);
    let written = filled.and(named);
    if written.is_err() {
        let _ = beside::remove(rt, name);
    }
    written
}

// Writes a file all or nothing, and answers whether it stands.
pub fn write<R: Outside>(rt: &R, path: &[u8], bytes: &[u8]) -> bool {
    let written = if ground_parts::is_same(path, b"-") {
        rt.write_all(bytes)
    } else {
        write_beside(rt, path, bytes)
    };
    match written {
        Ok(()) => true,
        Err(error) => {
            failures::fail(&rt.stderr(), path, error);
            false
        }
    }
}
