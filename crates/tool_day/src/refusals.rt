// What is refused of a day: a line on standard output, the cause in words on standard error.
ghost use Rattle.std.specs.Prelude.{◌<◌};

use card::Refusal;
use edition::Edition;
use files::Outside;

// What a refusal's number means.
fn explain<R: Outside>(rt: &R, number: u8) {
    match number {
        40 => words::say(rt, b"the file's length, count or trailer does not fit"),
        42 => words::say(rt, b"the index is not the one that the images give"),
        43 => words::say(rt, b"more than 200 cards would result"),
        44 => words::say(rt, b"the number or position is not there"),
        _ => words::say(rt, b"the room is too small"),
    }
}

// Says what is wrong with the image at a position.
pub(crate) fn say_image<R: Outside>(rt: &R, position: usize, image: &[u8]) {
    files::write_all(&rt.stderr(), b"kvk: the card at position ");
    files::print_decimal(&rt.stderr(), position as u64);
    files::write_all(&rt.stderr(), b" is refused\n");
    words::say_refused(rt, Edition::TERMINAL, image);
}

// The same, of images that lie end to end.
fn say_position<R: Outside>(rt: &R, position: usize, images: &[u8]) {
    if let Some(image) = images.chunks_exact(256).nth(position) {
        say_image(rt, position, image);
    }
}

// Writes the line of a refusal, and answers the status of that.
pub(crate) fn write_refusal<R: Outside>(rt: &R, number: u8, place: usize) -> u8
    ensures { result < 4 }
{
    files::write_all(rt, b"REFUSED ");
    files::print_decimal(rt, number as u64);
    files::write_all(rt, b" ");
    files::print_decimal(rt, place as u64);
    words::refused(rt, b" 00 0 0\n")
}

// Tells a refusal of images that lie end to end, or of a file that begins with them.
pub(crate) fn tell<R: Outside>(rt: &R, refusal: Refusal, images: &[u8]) -> u8
    ensures { result < 4 }
{
    let number = refusal.number;
    if number == 41 {
        say_position(rt, refusal.place, images);
    } else {
        explain(rt, number);
    }
    write_refusal(rt, number, refusal.place)
}
