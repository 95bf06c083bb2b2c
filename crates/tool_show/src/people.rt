// A card for people: a line for each object, by its name.
use crate::{meanings, values};
use card::{Object, Record};

// Puts the line of an object that is present.
fn put_object(room: &mut [u8], at: usize, row: usize, item: Object) -> usize {
    if item.length == 0 {
        return at;
    }
    let behind_name = line_names::put_name(room, at, row);
    let start = ground_room::put(room, behind_name, b": ");
    let end = put_value(room, start, row, item);
    ground_room::put(room, end, b"\n")
}

// Puts a value: dates as people write them, and what status and addition mean.
fn put_value(room: &mut [u8], at: usize, row: usize, item: Object) -> usize {
    if row == 10 {
        return values::put_birth(room, at, item);
    }
    if row == 15 {
        return values::put_validity(room, at, item);
    }
    let behind = values::put_letters(room, at, item);
    if row == 4 {
        let start = ground_room::put(room, behind, b", ");
        return meanings::put_status(room, start, item);
    }
    if row == 5 {
        let start = ground_room::put(room, behind, b", ");
        return meanings::put_addition(room, start, item);
    }
    behind
}

fn put_objects(room: &mut [u8], at: usize, content: Record) -> usize {
    let mut place = at;
    for (row, item) in content.objects.iter().enumerate() {
        place = put_object(room, place, row, *item);
    }
    place
}

// The number that a record carries, and the name of the edition that has it.
fn put_edition(room: &mut [u8], at: usize, number: u8) -> usize {
    let start = ground_room::put(room, at, b"edition: ");
    let end = ground_digits::put_decimal(room, start, number as usize);
    match number {
        1 => ground_room::put(room, end, b", terminal\n"),
        2 => ground_room::put(room, end, b", issue\n"),
        _ => ground_room::put(room, end, b"\n"),
    }
}

pub(crate) fn put_card(room: &mut [u8], content: Record) -> usize {
    let behind_edition = put_edition(room, 0, content.number);
    put_objects(room, behind_edition, content)
}
