// The command tree FILE: lists the objects of a foreign card, each indented by its depth: tag, address, length and, if it is short text, the value.
// How the run ends is promised; what is printed is tested, not proved. What the tags mean is the reader's.
// The listing is made whole before its first line is written, so that a refusal is one line and nothing before it.
#![tactic(auto)]

ghost use Rattle.std.specs.Prelude.{◌<◌};

use files::Outside;
use tree::Refusal;

fn write<R: Outside>(rt: &R, text: &[u8]) -> bool {
    files::write_all(rt, text)
}

// What a refusal's number means.
fn explain<R: Outside>(rt: &R, number: u8) {
    match number {
        50 => words::say(rt, b"the tag is 00, or its low five bits are all ones"),
        51 => words::say(rt, b"this is no length field, or it is cut short"),
        52 => words::say(
            rt,
            b"the value goes past the end of the list that it stands in",
        ),
        53 => words::say(rt, b"the object is deeper than 6"),
        54 => words::say(rt, b"there are more than 4096 bytes"),
        _ => {}
    }
}

fn print_refusal<R: Outside>(rt: &R, refusal: Refusal) -> u8
    ensures { result < 4 }
{
    explain(rt, refusal.number);
    let is_begun = write(rt, b"REFUSED ");
    let is_told = files::print_decimal(rt, refusal.number as u64);
    let is_between = write(rt, b" ");
    let is_placed = files::print_decimal(rt, refusal.place as u64);
    let is_ended = write(rt, b" 00 0 0\n");
    if is_begun & is_told & is_between & is_placed & is_ended {
        return words::REFUSED;
    }
    words::written(rt, false)
}

fn print_indent<R: Outside>(rt: &R, depth: u16) {
    for _ in 1..depth {
        write(rt, b"  ");
    }
}

fn is_text(value: &[u8]) -> bool {
    !value.is_empty() && value.iter().all(|b| (*b >= 0x20) & (*b <= 0x7E))
}

// The value of an object whose tag stands at `at`, where it is text of at most 32 bytes: its length then takes one byte.
fn print_value<R: Outside>(rt: &R, bytes: &[u8], at: u16, length: u16) {
    let start = at as usize + 2;
    let end = start + length as usize;
    if length > 32 {
        return;
    }
    if bytes.len() < end {
        return;
    }
    let value = &bytes[start..end];
    if is_text(value) {
        write(rt, b" ");
        write(rt, value);
    }
}

// A word of an object in the listing: 0 the tag, 1 the depth, 2 the address, 3 the length.
fn word_at(room: &[u16], object: u16, word: u8) -> u16 {
    let i = object as usize * 4 + word as usize;
    if i < room.len() { room[i] } else { 0 }
}

fn print_object<R: Outside>(rt: &R, bytes: &[u8], room: &[u16], object: u16) -> bool {
    let tag = word_at(room, object, 0) % 256;
    let at = word_at(room, object, 2);
    let length = word_at(room, object, 3);
    let mut digits = [0u8; 2];
    ground_digits::put_hex(&mut digits, 0, tag as u8);
    print_indent(rt, word_at(room, object, 1));
    write(rt, &digits);
    write(rt, b" ");
    files::print_decimal(rt, at as u64);
    write(rt, b" ");
    files::print_decimal(rt, length as u64);
    if tag & 0x20 == 0 {
        print_value(rt, bytes, at, length);
    }
    write(rt, b"\n")
}

fn print_objects<R: Outside>(rt: &R, bytes: &[u8], room: &[u16], count: u16) -> u8
    ensures { result < 4 }
{
    for object in 0..count {
        if !print_object(rt, bytes, room, object) {
            return words::written(rt, false);
        }
    }
    words::DONE
}

fn list_bytes<R: Outside>(rt: &R, bytes: &[u8]) -> u8
    ensures { result < 4 }
{
    let mut room = [0u16; 8192];
    match tree_list::list_tree(bytes, &mut room) {
        Ok(count) => print_objects(rt, bytes, &room, count),
        Err(refusal) => print_refusal(rt, refusal),
    }
}

fn list_file<R: Outside>(rt: &R, path: &[u8]) -> u8
    ensures { result < 4 }
{
    let Some(mut file) = files::open(rt, path) else {
        return words::FAILED;
    };
    // One byte more than may be: a longer file is refused.
    let mut bytes = [0u8; 4097];
    let length = files::read_full(&mut file, &mut bytes);
    list_bytes(rt, &bytes[..length])
}

// Runs the command and answers its status.
pub fn run<R: Outside>(rt: &R) -> u8
    ensures { result < 4 }
{
    if files::arg_count(rt) != 3 {
        return words::misused(rt, b"tree takes one file");
    }
    let mut path = [0u8; 4096];
    let length = files::arg(rt, 2, &mut path);
    list_file(rt, &path[..length])
}
