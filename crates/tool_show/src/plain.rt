// A card as text that make takes.
use crate::values;
use card::{Object, Record};

const FIRST: usize = 16;

const FREE: usize = 17;

const LAST: usize = 18;

// Puts the start of a line.
fn put_name(room: &mut [u8], at: usize, key: usize) -> usize {
    let behind_name = line_names::put_name(room, at, key);
    ground_room::put(room, behind_name, b": ")
}

fn put_byte(room: &mut [u8], at: usize, key: usize, byte: u8) -> usize {
    let start = put_name(room, at, key);
    let end = ground_digits::put_hex(room, start, byte);
    ground_room::put(room, end, b"\n")
}

fn put_object(room: &mut [u8], at: usize, row: usize, item: Object) -> usize {
    if item.length == 0 {
        return at;
    }
    let start = put_name(room, at, row);
    let end = values::put_letters(room, start, item);
    ground_room::put(room, end, b"\n")
}

fn put_objects(room: &mut [u8], at: usize, content: Record) -> usize {
    let mut place = at;
    for (row, item) in content.objects.iter().enumerate() {
        place = put_object(room, place, row, *item);
    }
    place
}

pub(crate) fn put_text(room: &mut [u8], content: Record) -> usize {
    let free = content.free;
    let behind_first = put_byte(room, 0, FIRST, content.first);
    let at_free = put_name(room, behind_first, FREE);
    let behind_free = values::put_free(room, at_free, free);
    let at_last = ground_room::put(room, behind_free, b"\n");
    let behind_last = put_byte(room, at_last, LAST, content.last);
    put_objects(room, behind_last, content)
}
