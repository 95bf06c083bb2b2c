// A file that is made beside another, by a name that is new; what is done with it on the way to its own name.
use crate::reach::Outside;
use std::fs::{OpenFile, OpenOptions};
use std::io::{Error, ErrorKind, Write};
use std::os::unix::fs::OpenOptionsExt;
use std::random::RandomSource;
use std::{fs, io};

// How many names are tried for a file that is to be new.
const TRIES: usize = 64;

const ENDS: &[u8; 62] = b"ABCDEFGHIJKLMNOPQRSTUVWXYZabcdefghijklmnopqrstuvwxyz0123456789";

// Ends a name with six letters or digits at random.
fn end_name<R: RandomSource>(rt: &R, name: &mut [u8]) -> io::Result<()> {
    let mut chance = [0u8; 6];
    rt.fill_bytes(&mut chance)?;
    if name.len() < 6 {
        return Ok(());
    }
    let start = name.len() - 6;
    let ends = chance.map(|byte| ENDS[byte as usize % 62]);
    ground_room::put(name, start, &ends);
    Ok(())
}

// Makes a file that only its owner may read or write; it fails where there is one of this name.
fn make<R: Outside>(rt: &R, name: &[u8]) -> io::Result<R::File> {
    let mut options = OpenOptions::new();
    options.write(true).create_new(true).mode(0o600);
    options.open(rt, crate::name_of(name)?)
}

// Makes a file by a name that no other has.
pub(crate) fn make_new<R: Outside>(rt: &R, name: &mut [u8]) -> io::Result<R::File> {
    for _ in 0..TRIES {
        end_name(rt, name)?;
        match make(rt, name) {
            Err(error) if error.kind() == ErrorKind::AlreadyExists => {}
            made => return made,
        }
    }
    Err(Error::from(ErrorKind::AlreadyExists))
}

// Writes all of a file, to its device.
pub(crate) fn fill<F: Write + OpenFile + Drop>(mut file: F, bytes: &[u8]) -> io::Result<()> {
    file.write_all(bytes)?;
    file.sync_all()
}

pub(crate) fn rename<R: Outside>(rt: &R, name: &[u8], path: &[u8]) -> io::Result<()> {
    fs::rename(rt, crate::name_of(name)?, crate::name_of(path)?)
}

pub(crate) fn remove<R: Outside>(rt: &R, name: &[u8]) -> io::Result<()> {
    fs::remove_file(rt, crate::name_of(name)?)
}
