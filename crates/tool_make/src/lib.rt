// The command make EDITION TEXT OUT: the 256 bytes of a card from a text, all of them or none.
// What the text says is `card_text`'s, what may be written is `writer`'s. Files and words of the command line are looked at here.
// What is refused is told with the line of the text that is to be changed, where there is one.
#![tactic(auto)]

mod wrong;

ghost use Rattle.std.specs.Prelude.{◌<◌};

use edition::Edition;
use files::Outside;

// Writes the first bytes of a room.
fn write_first<R: Outside>(rt: &R, room: &[u8], size: usize) -> bool {
    match room.get(..size) {
        Some(part) => files::write_all(rt, part),
        None => false,
    }
}

// Puts a blank and a number.
fn put_number(room: &mut [u8], at: usize, n: usize) -> usize {
    let start = ground_room::put_byte(room, at, b' ');
    ground_digits::put_decimal(room, start, n)
}

// Puts number, place and tag.
fn put_cause(room: &mut [u8], at: usize, number: u8, place: usize, tag: u8) -> usize {
    let behind_number = put_number(room, at, number as usize);
    let behind_place = put_number(room, behind_number, place);
    let start = ground_room::put_byte(room, behind_place, b' ');
    ground_digits::put_hex(room, start, tag)
}

// Puts shortest, longest and the end of the line.
fn put_ends(room: &mut [u8], at: usize, shortest: u8, longest: u8) -> usize {
    let behind_shortest = put_number(room, at, shortest as usize);
    let behind_longest = put_number(room, behind_shortest, longest as usize);
    ground_room::put_byte(room, behind_longest, b'\n')
}

// Writes the line of a refusal.
fn print_refusal<R: Outside>(
    rt: &R,
    number: u8,
    place: usize,
    tag: u8,
    shortest: u8,
    longest: u8,
) -> bool {
    let mut room = [0u8; 32];
    let behind_word = ground_room::put(&mut room, 0, b"REFUSED");
    let behind_cause = put_cause(&mut room, behind_word, number, place, tag);
    let end = put_ends(&mut room, behind_cause, shortest, longest);
    write_first(rt, &room, end)
}

// Makes the card of a text that has no fault.
fn make_card<R: Outside>(rt: &R, edition: Edition, text: &[u8]) -> u8
    ensures { result < 4 }
{
    let mut image = [0u8; 256];
    let content = text_records::record_of(text, edition.number);
    let refusal = writer::write(edition, content, &mut image);
    if refusal.number != 0 {
        wrong::say_refusal(rt, text, content, refusal);
        if print_refusal(
            rt,
            refusal.number,
            refusal.place,
            refusal.tag,
            refusal.shortest,
            refusal.longest,
        ) {
            return words::REFUSED;
        }
        return words::written(rt, false);
    }
    let mut path = [0u8; 4096];
    let length = files::arg(rt, 4, &mut path);
    if files::write(rt, &path[..length], &image) {
        words::DONE
    } else {
        words::FAILED
    }
}

// Makes the card of a text.
fn make<R: Outside>(rt: &R, edition: Edition, text: &[u8]) -> u8
    ensures { result < 4 }
{
    if let Some(fault) = text_checks::check(text) {
        wrong::say_fault(rt, text, fault);
        return words::REFUSED;
    }
    make_card(rt, edition, text)
}

pub fn run<R: Outside>(rt: &R) -> u8
    ensures { result < 4 }
{
    if files::arg_count(rt) != 5 {
        return words::misused(
            rt,
            b"make takes an edition, a text, and the file to be written",
        );
    }
    let chosen = tables::edition_at(rt, 2);
    if chosen.status != words::DONE {
        return chosen.status;
    }
    let mut path = [0u8; 4096];
    let named = files::arg(rt, 3, &mut path);
    let Some(mut file) = files::open(rt, &path[..named]) else {
        return words::FAILED;
    };
    let mut text = [0u8; 65536];
    let length = files::read_full(&mut file, &mut text);
    if length == text.len() {
        words::say(rt, b"the text is longer than any card's");
        return words::REFUSED;
    }
    make(rt, chosen.edition, &text[..length])
}
