// What the commands of ./kvk share: how a run ends, what is said of bad usage, a listing, what is wrong with a card in words, a word of hex digits.
// What a command does, and which words it takes, is its own. What is said goes to standard error, what is written to standard output; `put_name` is told where.
// `say_refused` reads the card again: it is told no refusal, so that it cannot be told a wrong one.
#![tactic(auto)]

mod hex;
mod listed;
mod wrong;

ghost use Rattle.std.specs.Prelude.{◌≡◌, ◌<◌};

use edition::Edition;
use files::Outside;
pub use hex::put_hex_word;
pub use listed::list_image;
pub use wrong::{put_name, say_refused};

pub const DONE: u8 = 0;

pub const REFUSED: u8 = 1;

pub const MISUSED: u8 = 2;

pub const FAILED: u8 = 3;

// Writes a line to standard error.
pub fn say<R: Outside>(rt: &R, text: &[u8]) {
    files::write_all(&rt.stderr(), b"kvk: ");
    files::write_all(&rt.stderr(), text);
    files::write_all(&rt.stderr(), b"\n");
}

// Says what is wrong with the words, and answers the status of that.
pub fn misused<R: Outside>(rt: &R, text: &[u8]) -> u8
    ensures { result ≡ 2 }
{
    files::write_all(&rt.stderr(), b"kvk: ");
    files::write_all(&rt.stderr(), text);
    files::write_all(&rt.stderr(), b"; 'kvk help' says more\n");
    MISUSED
}

// Writes the first bytes of a room to a file.
pub(crate) fn put_first<P: Print>(to: &P, room: &[u8], size: usize) {
    if size <= room.len() {
        files::write_all(to, &room[..size]);
    }
}

// Writes the line of a list with this number, counted from 0, to a file; a line has 128 bytes at most.
pub fn put_line<P: Print>(to: &P, list: &[u8], number: usize) {
    let mut room = [0u8; 128];
    let end = line_names::put_line(&mut room, 0, list, number);
    put_first(to, &room, end);
}

// The status of what was or was not written.
pub fn written<R: Outside>(rt: &R, is_written: bool) -> u8
    ensures { result < 4 }
{
    if is_written {
        return DONE;
    }
    say(rt, b"the answer could not be written");
    FAILED
}

// Writes a refusal, and answers the status of that.
pub fn refused<R: Outside>(rt: &R, line: &[u8]) -> u8
    ensures { result < 4 }
{
    if files::write_all(rt, line) {
        return REFUSED;
    }
    written(rt, false)
}

// The edition with this number, 1 or 2.
pub fn edition_by(number: u64) -> Edition {
    if number == 1 {
        Edition::terminal()
    } else {
        Edition::issue()
    }
}

// The edition of a command that names none: that of a listing.
pub fn default_edition() -> Edition {
    edition_by(files::choose(false, b""))
}
