// list FILE, find FILE NUMBER and get FILE POSITION OUT.
ghost use Rattle.std.specs.Prelude.{◌<◌};

use crate::{inputs, refusals};
use card::Object;
use edition::Edition;
use files::Outside;

// Writes the first bytes of a value behind a blank.
fn show_bytes<R: Outside>(rt: &R, bytes: &[u8], length: usize) {
    if length > bytes.len() {
        return;
    }
    files::write_all(rt, b" ");
    files::write_all(rt, &bytes[..length]);
}

// Writes the value of an object that is there.
fn show_value<R: Outside>(rt: &R, item: Object) {
    let bytes = item.bytes;
    if item.length != 0 {
        show_bytes(rt, &bytes, item.length as usize);
    }
}

// Writes the line of a card: position, insured number, name.
fn show_card<R: Outside>(rt: &R, position: usize, image: &[u8]) -> bool {
    let reading = reader::read(Edition::TERMINAL, image);
    let content = reading.content;
    files::print_decimal(rt, position as u64);
    show_value(rt, content.objects[3]);
    show_value(rt, content.objects[6]);
    show_value(rt, content.objects[7]);
    show_value(rt, content.objects[8]);
    show_value(rt, content.objects[9]);
    files::write_all(rt, b"\n")
}

// Writes the lines of so many cards.
fn show_cards<R: Outside>(rt: &R, count: usize, file: &[u8]) -> u8
    ensures { result < 4 }
{
    let mut is_written = true;
    for (k, image) in file.chunks_exact(256).take(count).enumerate() {
        is_written = is_written & show_card(rt, k, image);
    }
    words::written(rt, is_written)
}

fn list_cards<R: Outside>(rt: &R, file: &[u8]) -> u8
    ensures { result < 4 }
{
    match day_read::count(file) {
        Ok(count) => show_cards(rt, count, file),
        Err(refusal) => refusals::tell(rt, refusal, file),
    }
}

// Lists the cards of the file that word 3 names.
pub(crate) fn list<R: Outside>(rt: &R) -> u8
    ensures { result < 4 }
{
    let Some(mut source) = inputs::open_at(rt, 3) else {
        return words::FAILED;
    };
    let mut file = [0u8; 65536];
    let size = files::read_full(&mut source, &mut file);
    list_cards(rt, &file[..size])
}

fn find_number<R: Outside>(rt: &R, file: &[u8], number: &[u8]) -> u8
    ensures { result < 4 }
{
    let position = match day_find::find(file, number) {
        Ok(position) => position,
        Err(refusal) => return refusals::tell(rt, refusal, file),
    };
    files::write_all(rt, b"FOUND ");
    files::print_decimal(rt, position as u64);
    words::written(rt, files::write_all(rt, b"\n"))
}

// Finds the number that word 4 is in the file that word 3 names.
pub(crate) fn find<R: Outside>(rt: &R) -> u8
    ensures { result < 4 }
{
    let Some(mut source) = inputs::open_at(rt, 3) else {
        return words::FAILED;
    };
    let mut file = [0u8; 65536];
    let size = files::read_full(&mut source, &mut file);
    let mut number = [0u8; 16];
    let length = files::arg(rt, 4, &mut number);
    find_number(rt, &file[..size], &number[..length])
}

fn get_image<R: Outside>(rt: &R, file: &[u8], position: usize) -> u8
    ensures { result < 4 }
{
    let image = day_read::image_at(file, position);
    if inputs::write_file(rt, 5, image, 256) {
        words::DONE
    } else {
        words::FAILED
    }
}

fn get_position<R: Outside>(rt: &R, file: &[u8], position: usize) -> u8
    ensures { result < 4 }
{
    match day_read::image_start(file, position) {
        Ok(_) => get_image(rt, file, position),
        Err(refusal) => refusals::tell(rt, refusal, file),
    }
}

// Takes the card at the position that word 4 is out of the file that word 3 names.
pub(crate) fn get<R: Outside>(rt: &R) -> u8
    ensures { result < 4 }
{
    let Some(position) = inputs::number_at(rt, 4) else {
        return words::misused(rt, b"day get takes a position of at most four digits");
    };
    let Some(mut source) = inputs::open_at(rt, 3) else {
        return words::FAILED;
    };
    let mut file = [0u8; 65536];
    let size = files::read_full(&mut source, &mut file);
    get_position(rt, &file[..size], position)
}
