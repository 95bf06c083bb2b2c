// The command host EDITION FILE COMMAND: answers a host's command over the card in the file; command and answer are written in hex.
// What is answered is `host`'s. The words of the command line are looked at here, and nothing is written where they are bad.
// A command that is declined is answered all the same, with its two bytes; what they mean is said on standard error.
#![tactic(auto)]

ghost use Rattle.std.specs.Prelude.{◌≡◌, ◌<◌, ◌≤◌, length, take};

use edition::Edition;
use files::Outside;
use std::io::Read;

// Puts so many bytes in hex at the start of a room, and the end of the line. Answers how many bytes that takes.
fn put_line(room: &mut [u8], bytes: &[u8], count: usize) -> usize
    ensures bound { result ≤ length room.new }
    ensures taken { result ≡ length (take result room.new) }
{
    let mut place = 0;
    for i in 0..count {
        place = ground_digits::put_hex(room, place, ground_parts::byte_at(bytes, i));
    }
    ground_room::put_byte(room, place, b'\n')
}

// Says why a command is declined, by the first byte of the answer.
fn say_why<R: Outside>(rt: &R, status: u8) {
    match status {
        0x67 => words::say(
            rt,
            b"a command has five bytes, the last of them a count from 1 on",
        ),
        0x6D => words::say(rt, b"a command begins with 00B0"),
        0x69 => words::say(rt, b"the card is refused; 'kvk list' says why"),
        _ => words::say(rt, b"the range goes past the template"),
    }
}

// Answers a command over the card in an open file.
fn answer<R: Outside>(rt: &R, edition: Edition, file: &mut impl Read, command: &[u8]) -> u8
    ensures { result < 4 }
{
    // One byte more than a card has: a card with something behind it is none.
    let mut image = [0u8; 257];
    let length = files::read_full(file, &mut image);
    let mut room = [0u8; 257];
    let hosted = host::host(edition, &image[..length], command, &mut room);
    let mut text = [0u8; 515];
    let size = put_line(&mut text, &room, hosted.length);
    let is_written = files::write_all(rt, &text[..size]);
    // The shortest answer with bytes of the card has three.
    if is_written & (hosted.length == 2) {
        say_why(rt, room[0]);
        return words::REFUSED;
    }
    words::written(rt, is_written)
}

// Answers a command over the card in the file that word 3 names.
fn answer_file<R: Outside>(rt: &R, edition: Edition, command: &[u8]) -> u8
    ensures { result < 4 }
{
    let mut path = [0u8; 4096];
    let length = files::arg(rt, 3, &mut path);
    let Some(mut file) = files::open(rt, &path[..length]) else {
        return words::FAILED;
    };
    answer(rt, edition, &mut file, command)
}

// A command of so many bytes, at the start of a room.
fn run_command<R: Outside>(rt: &R, edition: Edition, room: &[u8], count: usize) -> u8
    ensures { result < 4 }
{
    if room.len() < count {
        return words::misused(rt, b"host takes a command of at most 4096 hex digits");
    }
    answer_file(rt, edition, &room[..count])
}

// The command that word 4 names.
fn run_word<R: Outside>(rt: &R, edition: Edition) -> u8
    ensures { result < 4 }
{
    let mut word = [0u8; 4096];
    let Ok(length) = rt.arg(4, &mut word) else {
        return words::misused(rt, b"host takes a command of at most 4096 hex digits");
    };
    let mut bytes = [0u8; 2048];
    if !words::put_hex_word(&mut bytes, &word[..length]) {
        return words::misused(rt, b"a command is written in hex digits, two for a byte");
    }
    run_command(rt, edition, &bytes, length / 2)
}

pub fn run<R: Outside>(rt: &R) -> u8
    ensures { result < 4 }
{
    if files::arg_count(rt) != 5 {
        return words::misused(rt, b"host takes an edition, a file and a command");
    }
    let chosen = tables::edition_at(rt, 2);
    if chosen.status != words::DONE {
        return chosen.status;
    }
    run_word(rt, chosen.edition)
}
