// Whether one table is nested in another; where it is not, a card that the inner takes and the outer does not.
ghost use Rattle.std.specs.Prelude.{◌<◌};

use crate::check;
use edition::Edition;
use files::Outside;
use nesting::Nesting;

// Writes what a card is answered with under an edition.
fn write_reading<R: Outside>(rt: &R, who: &[u8], edition: Edition, image: &[u8]) {
    let mut room = [0u8; 521];
    let size = listing::list(edition, image, &mut room);
    files::write_all(rt, who);
    if room[0] == b'A' {
        files::write_all(rt, b"ACCEPTED\n");
    } else {
        files::write_all(rt, &room[..size]);
    }
}

// Puts a byte in hex, and the end of the line behind the last of one. Answers the place behind it.
fn put_cell(room: &mut [u8], at: usize, byte: u8, is_last: bool) -> usize {
    let place = ground_digits::put_hex(room, at, byte);
    if is_last {
        return ground_room::put_byte(room, place, b'\n');
    }
    place
}

// Puts an image as eight lines of hex digits.
fn put_image(room: &mut [u8], image: &[u8; 256]) {
    let mut place = 0;
    for (i, byte) in image.iter().enumerate() {
        place = put_cell(room, place, *byte, i % 32 == 31);
    }
}

fn write_image<R: Outside>(rt: &R, image: &[u8; 256]) -> u8
    ensures { result < 4 }
{
    let mut room = [0u8; 520];
    put_image(&mut room, image);
    words::refused(rt, &room)
}

// Writes the image to the file that word 5 names.
fn write_file<R: Outside>(rt: &R, image: &[u8]) -> u8
    ensures { result < 4 }
{
    let mut path = [0u8; 4096];
    let length = files::arg(rt, 5, &mut path);
    if files::write(rt, &path[..length], image) {
        return words::REFUSED;
    }
    words::FAILED
}

// Writes the card that shows it, as a file where one is named.
fn write_card<R: Outside>(rt: &R, inner: Edition, outer: Edition, to_file: bool) -> u8
    ensures { result < 4 }
{
    let mut image = [0u8; 256];
    let refusal = writer::write(inner, example_card::example(inner, outer), &mut image);
    if refusal.number != 0 {
        words::say(
            rt,
            b"no card shows it: none that the inner permits fits a template and its sums",
        );
        return words::REFUSED;
    }
    write_reading(rt, b"inner: ", inner, &image);
    write_reading(rt, b"outer: ", outer, &image);
    if to_file {
        return write_file(rt, &image);
    }
    write_image(rt, &image)
}

// Writes the row and the clause that fails there.
fn write_clause<R: Outside>(rt: &R, answer: Nesting) {
    files::write_all(rt, b"no: ");
    check::write_row(rt, answer.row);
    words::put_line(
        rt,
        b"\n: the inner permits a length that the outer does not\n: the inner takes a value that the outer does not\n: the outer requires it, and the inner does not",
        answer.clause as usize,
    );
    files::write_all(rt, b"\n");
}

fn write_no<R: Outside>(
    rt: &R,
    inner: Edition,
    outer: Edition,
    answer: Nesting,
    to_file: bool,
) -> u8
    ensures { result < 4 }
{
    write_clause(rt, answer);
    write_card(rt, inner, outer, to_file)
}

pub(crate) fn nested<R: Outside>(rt: &R, inner: Edition, outer: Edition, to_file: bool) -> u8
    ensures { result < 4 }
{
    let answer = nesting_answer::nested(inner, outer);
    let clause = answer.clause;
    match clause {
        0 => words::written(rt, files::write_all(rt, b"yes\n")),
        4 => words::refused(rt, b"no: the inner is not well formed\n"),
        5 => words::refused(rt, b"no: the outer is not well formed\n"),
        _ => write_no(rt, inner, outer, answer, to_file),
    }
}
