// What is wrong with a refused card, where, and what is due there: one line on standard error.
use card::Refusal;
use edition::Edition;
use files::Outside;

fn put<R: Outside>(rt: &R, text: &[u8]) {
    files::write_all(&rt.stderr(), text);
}

fn put_number<R: Outside>(rt: &R, n: usize) {
    files::print_decimal(&rt.stderr(), n as u64);
}

// A byte as the documents write it.
fn put_byte<R: Outside>(rt: &R, byte: u8) {
    let mut digits = [0u8; 2];
    ground_digits::put_hex(&mut digits, 0, byte);
    put(rt, b"'");
    put(rt, &digits);
    put(rt, b"'");
}

fn put_place<R: Outside>(rt: &R, place: usize) {
    put(rt, b" at address ");
    put_number(rt, place);
}

// What stands at an address.
fn put_found<R: Outside>(rt: &R, image: &[u8], place: usize) {
    put_place(rt, place);
    put(rt, b" is ");
    put_byte(rt, ground_parts::byte_at(image, place));
}

fn put_due<R: Outside>(rt: &R, byte: u8) {
    put(rt, b", ");
    put_byte(rt, byte);
    put(rt, b" is due");
}

// The key of the name of the object with this tag; for another tag that of the checksum.
fn key_of(tag: u8) -> usize {
    if tag < 0x80 {
        return 19;
    }
    if tag > 0x90 {
        return 19;
    }
    ground_parts::byte_at(
        b"\x00\x01\x03\x04\x06\x07\x08\x09\x0A\x0B\x0C\x0D\x0E\x0F\x13\x02\x05",
        (tag - 0x80) as usize,
    ) as usize
}

// The name of the object with this tag.
pub fn put_name<P: Print>(to: &P, tag: u8) {
    let mut name = [0u8; 20];
    let end = line_names::put_name(&mut name, 0, key_of(tag));
    crate::put_first(to, &name, end);
}

fn put_object<R: Outside>(rt: &R, tag: u8) {
    put(rt, b"object ");
    put_byte(rt, tag);
    put(rt, b", ");
    put_name(&rt.stderr(), tag);
}

// 1
fn say_size<R: Outside>(rt: &R, image: &[u8]) {
    put(rt, b"the card has ");
    if image.len() > 256 {
        put(rt, b"more than 256");
    } else {
        put_number(rt, image.len());
    }
    if image.len() == 1 {
        put(rt, b" byte, 256 are due");
    } else {
        put(rt, b" bytes, 256 are due");
    }
}

// 2
fn say_edition<R: Outside>(rt: &R, tag: u8) {
    put(rt, b"the edition is not well formed");
    if tag == 0 {
        put(rt, b": its number is 0");
    } else {
        put(rt, b" in the row of ");
        put_object(rt, tag);
    }
}

// 3
fn say_head<R: Outside>(rt: &R, image: &[u8], place: usize) {
    put(rt, b"fixed byte");
    put_found(rt, image, place);
    if place == 0 {
        put(rt, b", '82', '92' or 'A2' is due");
    } else {
        put_due(
            rt,
            ground_parts::byte_at(
                b"\x82\x13\x10\x91\x46\x0B\0\0\0\0\0\0\0\0\0\0\0\x61\x0B\x4F\x06\xD2\x76\0\0\x01\x01\x53\x01",
                place,
            ),
        );
    }
}

// 4
fn say_template<R: Outside>(rt: &R, image: &[u8], place: usize) {
    if place == 30 {
        put(rt, b"template tag");
        put_found(rt, image, place);
        put_due(rt, 0x60);
    } else {
        put(rt, b"template length byte");
        put_found(rt, image, place);
        put(
            rt,
            b", a length of 70 to 127, or '81' and one of 128 to 212, is due",
        );
    }
}

// 5 and 12
fn say_tag<R: Outside>(rt: &R, image: &[u8], place: usize, is_behind: bool) {
    put(rt, b"tag");
    put_found(rt, image, place);
    if is_behind {
        put(rt, b", and the template ends with the checksum");
    } else {
        put(rt, b", and no object that may follow has it");
    }
}

// 7
fn say_length<R: Outside>(rt: &R, image: &[u8], refusal: Refusal) {
    put_object(rt, refusal.tag);
    put(rt, b", has length ");
    put_number(rt, ground_parts::byte_at(image, refusal.place) as usize);
    put_place(rt, refusal.place);
    put(rt, b", ");
    put_number(rt, refusal.shortest as usize);
    if refusal.shortest != refusal.longest {
        put(rt, b" to ");
        put_number(rt, refusal.longest as usize);
    }
    put(rt, b" is due");
}

// 6, 8, 10 and 11
fn say_object<R: Outside>(rt: &R, refusal: Refusal) {
    let number = refusal.number;
    put_object(rt, refusal.tag);
    match number {
        6 => put(rt, b", is missing, and it would stand"),
        8 => put(rt, b", goes past the template's end"),
        10 => put(rt, b", has a value that makes no sense"),
        _ => put(rt, b", and the objects of its group are too long together,"),
    }
    put_place(rt, refusal.place);
}

// 9
fn say_character<R: Outside>(rt: &R, image: &[u8], refusal: Refusal) {
    put(rt, b"character");
    put_found(rt, image, refusal.place);
    put(rt, b", and ");
    put_object(rt, refusal.tag);
    put(rt, b", may not have it");
}

// 13
fn say_checksum<R: Outside>(rt: &R, image: &[u8], place: usize) {
    put(rt, b"checksum");
    put_found(rt, image, place);
    if place < 30 {
        return;
    }
    if place <= image.len() {
        put_due(rt, card_checksum::checksum(&image[30..place]));
    }
}

// The filler's length byte that is due at an address, behind a template that ends at `end`.
fn due_length(end: usize, place: usize) -> u8 {
    if end >= 255 {
        return 0;
    }
    let spaces = card_ends::count_spaces(255 - end);
    if spaces <= 127 {
        return (spaces % 256) as u8;
    }
    if place == end + 1 {
        0x81
    } else {
        (spaces % 256) as u8
    }
}

// 14 to 16
fn say_filler<R: Outside>(rt: &R, image: &[u8], number: u8, place: usize) {
    match number {
        14 => put(rt, b"filler tag"),
        15 => put(rt, b"filler length byte"),
        _ => put(rt, b"filler byte"),
    }
    put_found(rt, image, place);
    match number {
        14 => put_due(rt, 0xC0),
        15 => put_due(
            rt,
            due_length(frame_front::check_front(image, Refusal::none()).end, place),
        ),
        _ => put_due(rt, 0x20),
    }
}

// 17
fn say_last<R: Outside>(rt: &R, image: &[u8], place: usize) {
    put(rt, b"last byte");
    put_found(rt, image, place);
    if place == 254 {
        put(rt, b", the same as at address 255 is due");
    } else if ground_parts::byte_at(image, 0) == 0x82 {
        put(rt, b", '00' or 'FF' is due");
    } else {
        put_due(rt, 0x00);
    }
}

// The number, in words.
fn say_number<R: Outside>(rt: &R, image: &[u8], refusal: Refusal) {
    let place = refusal.place;
    let number = refusal.number;
    match number {
        1 => say_size(rt, image),
        2 => say_edition(rt, refusal.tag),
        3 => say_head(rt, image, place),
        4 => say_template(rt, image, place),
        5 => say_tag(rt, image, place, false),
        7 => say_length(rt, image, refusal),
        9 => say_character(rt, image, refusal),
        12 => say_tag(rt, image, place, true),
        13 => say_checksum(rt, image, place),
        14 | 15 | 16 => say_filler(rt, image, number, place),
        17 => say_last(rt, image, place),
        _ => say_object(rt, refusal),
    }
}

// Says what is wrong with a card that is refused.
pub fn say_refused<R: Outside>(rt: &R, edition: Edition, image: &[u8]) {
    put(rt, b"kvk: ");
    say_number(rt, image, reader_places::places(edition, image).refusal);
    put(rt, b"\n");
}
