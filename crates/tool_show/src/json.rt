// A card as one object of JSON: the keys are the names, with underscores for blanks, and all values are strings.
use crate::{meanings, values};
use card::{Object, Record};

const FIRST: usize = 16;

const FREE: usize = 17;

const LAST: usize = 18;

// Puts an underscore for each blank of a part.
fn join(part: &mut [u8]) {
    for byte in part {
        if *byte == b' ' {
            *byte = b'_';
        }
    }
}

// Puts a key, with what stands before its value.
fn put_key(room: &mut [u8], at: usize, key: usize) -> usize {
    let start = ground_room::put(room, at, b",\n  \"");
    let end = line_names::put_name(room, start, key);
    if let Some(name) = room.get_mut(start..end) {
        join(name);
    }
    ground_room::put(room, end, b"\": \"")
}

// Puts a byte of a string.
fn put_escape(room: &mut [u8], at: usize, byte: u8) -> usize {
    if (byte == b'"') | (byte == b'\\') {
        return ground_room::put(room, at, &[b'\\', byte]);
    }
    ground_room::put_byte(room, at, byte)
}

// Puts a text with a backslash before each quotation mark and backslash.
fn put_escaped(room: &mut [u8], at: usize, text: &[u8]) -> usize {
    let mut place = at;
    for byte in text {
        place = put_escape(room, place, *byte);
    }
    place
}

fn put_letters(room: &mut [u8], at: usize, item: Object) -> usize {
    let mut text = [0u8; 56];
    let end = values::put_letters(&mut text, 0, item);
    put_escaped(room, at, values::part(&text, 0, end))
}

// Puts key and value of an object that is present.
fn put_object(room: &mut [u8], at: usize, row: usize, item: Object) -> usize {
    if item.length == 0 {
        return at;
    }
    let start = put_key(room, at, row);
    let behind_value = put_letters(room, start, item);
    let end = ground_room::put(room, behind_value, b"\"");
    if row == 4 {
        let words = ground_room::put(room, end, b",\n  \"status_in_words\": \"");
        let behind_words = meanings::put_status(room, words, item);
        return ground_room::put(room, behind_words, b"\"");
    }
    if row == 5 {
        let words = ground_room::put(room, end, b",\n  \"status_addition_in_words\": \"");
        let behind_words = meanings::put_addition(room, words, item);
        return ground_room::put(room, behind_words, b"\"");
    }
    end
}

fn put_objects(room: &mut [u8], at: usize, content: Record) -> usize {
    let mut place = at;
    for (row, item) in content.objects.iter().enumerate() {
        place = put_object(room, place, row, *item);
    }
    place
}

fn put_byte(room: &mut [u8], at: usize, key: usize, byte: u8) -> usize {
    let start = put_key(room, at, key);
    let end = ground_digits::put_hex(room, start, byte);
    ground_room::put(room, end, b"\"")
}

fn put_edition(room: &mut [u8], number: u8) -> usize {
    match number {
        1 => ground_room::put(room, 0, b"{\n  \"edition\": \"terminal\""),
        _ => ground_room::put(room, 0, b"{\n  \"edition\": \"issue\""),
    }
}

pub(crate) fn put_json(room: &mut [u8], content: Record) -> usize {
    let free = content.free;
    let behind_edition = put_edition(room, content.number);
    let behind_first = put_byte(room, behind_edition, FIRST, content.first);
    let at_free = put_key(room, behind_first, FREE);
    let behind_free = values::put_free(room, at_free, free);
    let behind_mark = ground_room::put(room, behind_free, b"\"");
    let behind_last = put_byte(room, behind_mark, LAST, content.last);
    let behind_objects = put_objects(room, behind_last, content);
    ground_room::put(room, behind_objects, b"\n}\n")
}
