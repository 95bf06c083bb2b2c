// Values as they are shown. Each function puts from `at` on and answers the place behind what it put.
use card::Object;

// A part of some bytes, and the empty part where there is none.
pub(crate) fn part(bytes: &[u8], start: usize, end: usize) -> &[u8] {
    bytes.get(start..end).unwrap_or(&[])
}

// Puts the letters of a value in UTF-8.
pub(crate) fn put_letters(room: &mut [u8], at: usize, item: Object) -> usize {
    let bytes = item.bytes;
    let mut text = [0u8; 56];
    let turned = letters_spelled::to_utf8(part(&bytes, 0, item.length as usize), &mut text);
    ground_room::put(room, at, part(&text, 0, turned.made))
}

// Puts some bytes of a value as they stand.
pub(crate) fn put_some(
    room: &mut [u8],
    at: usize,
    item: Object,
    start: usize,
    end: usize,
) -> usize {
    let bytes = item.bytes;
    ground_room::put(room, at, part(&bytes, start, end))
}

// Puts a birth date: day, month and year.
pub(crate) fn put_birth(room: &mut [u8], at: usize, item: Object) -> usize {
    let behind_day = put_some(room, at, item, 0, 2);
    let at_month = ground_room::put(room, behind_day, b".");
    let behind_month = put_some(room, at_month, item, 2, 4);
    let at_year = ground_room::put(room, behind_month, b".");
    put_some(room, at_year, item, 4, 8)
}

// Puts a validity: month and year.
pub(crate) fn put_validity(room: &mut [u8], at: usize, item: Object) -> usize {
    let behind_month = put_some(room, at, item, 0, 2);
    let at_year = ground_room::put(room, behind_month, b"/20");
    put_some(room, at_year, item, 2, 4)
}

// Puts the free bytes in hex digits.
pub(crate) fn put_free(room: &mut [u8], at: usize, free: [u8; 12]) -> usize {
    let mut place = at;
    for byte in free {
        place = ground_digits::put_hex(room, place, byte);
    }
    place
}
