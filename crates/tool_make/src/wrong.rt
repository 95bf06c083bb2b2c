// What is wrong with a text, or with the record that it makes, in words: one line on standard error, with the line of the text.
use card::{Object, Record, Refusal};
use card_text::{Fault, Wrong};
use files::Outside;

const FIRST: usize = 16;

const LAST: usize = 18;

fn put<R: Outside>(rt: &R, text: &[u8]) {
    files::write_all(&rt.stderr(), text);
}

// The first bytes of a room.
fn put_first<R: Outside>(rt: &R, room: &[u8], size: usize) {
    if let Some(part) = room.get(..size) {
        put(rt, part);
    }
}

fn put_number<R: Outside>(rt: &R, n: usize) {
    files::print_decimal(&rt.stderr(), n as u64);
}

// A byte as the documents write it.
fn put_byte<R: Outside>(rt: &R, byte: u8) {
    let mut digits = [0u8; 2];
    ground_digits::put_hex(&mut digits, 0, byte);
    put(rt, b"'");
    put(rt, &digits);
    put(rt, b"'");
}

// The text's name, and the line, where there is one.
fn put_line<R: Outside>(rt: &R, line: Option<usize>) {
    let mut path = [0u8; 4096];
    let length = files::arg(rt, 3, &mut path);
    put(rt, b"kvk: ");
    put(rt, &path[..length]);
    if let Some(number) = line {
        put(rt, b", line ");
        put_number(rt, number);
    }
    put(rt, b": ");
}

fn put_name<R: Outside>(rt: &R, key: usize) {
    let mut room = [0u8; 20];
    let end = line_names::put_name(&mut room, 0, key);
    put_first(rt, &room, end);
}

// Of a text in UTF-8, how many bytes the letter has that begins with this one.
fn letter_size(first: u8) -> usize {
    if first < 0xC0 {
        return 1;
    }
    if first < 0xE0 {
        return 2;
    }
    if first < 0xF0 { 3 } else { 4 }
}

// The letter at a place of a value.
fn put_letter<R: Outside>(rt: &R, value: &[u8], place: usize) {
    let size = letter_size(ground_parts::byte_at(value, place));
    if place >= value.len() {
        return;
    }
    put(rt, b"'");
    if size > value.len() - place {
        put(rt, &value[place..]);
    } else {
        let end = place + size;
        put(rt, &value[place..end]);
    }
    put(rt, b"' ");
}

// Says what is wrong with a line.
pub(crate) fn say_fault<R: Outside>(rt: &R, text: &[u8], fault: Fault) {
    put_line(rt, Some(fault.line));
    match fault.wrong {
        Wrong::Name => put(rt, b"no object has this name"),
        Wrong::Again => put(rt, b"an earlier line has this already"),
        Wrong::Letter => put_letter(rt, text_entries::value(text, fault.key), fault.place),
        Wrong::Digits => put_name(rt, fault.key),
        Wrong::Checksum => put(rt, b"the checksum is computed, and no line sets it"),
    }
    match fault.wrong {
        Wrong::Letter => put(rt, b"is no letter of DIN 66003\n"),
        Wrong::Digits => put(
            rt,
            b" is due in hex digits, two for a byte: 24 for the free bytes, and else 2\n",
        ),
        _ => put(rt, b"\n"),
    }
}

// The row with this tag, or 16.
fn row_of(tag: u8) -> usize {
    (0..16)
        .position(|row| edition_tags::tag_of(row) == tag)
        .unwrap_or(16)
}

fn object_at(content: Record, row: usize) -> Object {
    if row < 16 {
        content.objects[row]
    } else {
        Object::ABSENT
    }
}

fn put_object<R: Outside>(rt: &R, tag: u8) {
    put(rt, b"object ");
    put_byte(rt, tag);
    put(rt, b", ");
    words::put_name(&rt.stderr(), tag);
}

// 3
fn say_end<R: Outside>(rt: &R, text: &[u8], first: u8, last: u8) {
    if card_ends::allows_first(first) {
        put_line(rt, text_entries::line_of(text, LAST));
        put(rt, b"the last byte is ");
        put_byte(rt, last);
        put(rt, b", '00' is due, or 'FF' where address 0 is '82'\n");
    } else {
        put_line(rt, text_entries::line_of(text, FIRST));
        put(rt, b"address 0 is ");
        put_byte(rt, first);
        put(rt, b", '82', '92' or 'A2' is due\n");
    }
}

// 7
fn say_length<R: Outside>(rt: &R, item: Object, refusal: Refusal) {
    put(rt, b", has length ");
    put_number(rt, item.length as usize);
    put(rt, b", ");
    put_number(rt, refusal.shortest as usize);
    if refusal.shortest != refusal.longest {
        put(rt, b" to ");
        put_number(rt, refusal.longest as usize);
    }
    put(rt, b" is due\n");
}

// 9
fn say_letter<R: Outside>(rt: &R, item: Object, place: usize) {
    let bytes = item.bytes;
    let byte = [ground_parts::byte_at(&bytes, place)];
    let mut room = [0u8; 2];
    let turned = letters_spelled::to_utf8(&byte, &mut room);
    put(rt, b", may not have '");
    put_first(rt, &room, turned.made);
    put(rt, b"'\n");
}

// 6, 7, 9, 10 and 11
fn say_object<R: Outside>(rt: &R, text: &[u8], content: Record, refusal: Refusal) {
    let number = refusal.number;
    let row = row_of(refusal.tag);
    put_line(rt, text_entries::line_of(text, row));
    put_object(rt, refusal.tag);
    match number {
        6 => put(rt, b", is missing\n"),
        7 => say_length(rt, object_at(content, row), refusal),
        9 => say_letter(rt, object_at(content, row), refusal.place),
        10 => put(rt, b", has a value that makes no sense\n"),
        _ => put(
            rt,
            b", and the objects of its group are too long together\n",
        ),
    }
}

// Says why a record is not written.
pub(crate) fn say_refusal<R: Outside>(rt: &R, text: &[u8], content: Record, refusal: Refusal) {
    let number = refusal.number;
    match number {
        3 => say_end(rt, text, content.first, content.last),
        4 => {
            put_line(rt, None);
            put(
                rt,
                b"the objects are too short or too long together: a template has a length of 70 to 212\n",
            );
        }
        _ => say_object(rt, text, content, refusal),
    }
}
