// The command front [--fund] [--svg] FILE: the printed front of a card, with the fund name or without, as text or as a picture.
// What is printed is `front_print`'s. The words of the command line are looked at here, and nothing is written where they are bad.
// The card is read under terminal, which takes what issue takes; a card that is refused is listed as such.
#![tactic(auto)]

mod framed;
mod letters;
mod picture;

ghost use Rattle.std.specs.Prelude.{◌<◌};

use card::Record;
use edition::Edition;
use files::Outside;
use std::io::Read;

// Says why a card that was read has no front.
fn refused<R: Outside>(rt: &R, number: u8) -> u8
    ensures { result < 4 }
{
    if number == 30 {
        words::say(
            rt,
            b"the status addition is missing, or none of the eighteen signs",
        );
        return words::refused(rt, b"REFUSED 30 0 00 0 0\n");
    }
    if number == 31 {
        words::say(rt, b"the validity is missing");
        return words::refused(rt, b"REFUSED 31 0 00 0 0\n");
    }
    words::say(rt, b"a printed field has an underscore");
    words::refused(rt, b"REFUSED 32 0 00 0 0\n")
}

// Prints the front of a record that was read under terminal.
fn print_front<R: Outside>(rt: &R, content: Record, fund: bool, svg: bool) -> u8
    ensures { result < 4 }
{
    let mut lines = [b' '; 112];
    let refusal = front_print::print(content, fund, &mut lines);
    if refusal.number != 0 {
        return refused(rt, refusal.number);
    }
    if svg {
        return words::written(rt, picture::draw_lines(rt, &lines));
    }
    words::written(rt, framed::show_lines(rt, &lines))
}

// Prints the front of the card in an open file, or lists why it is none.
fn print_card<R: Outside>(rt: &R, file: &mut impl Read, fund: bool, svg: bool) -> u8
    ensures { result < 4 }
{
    // One byte more than a card has: a card with something behind it is none.
    let mut image = [0u8; 257];
    let length = files::read_full(file, &mut image);
    let reading = reader::read(Edition::TERMINAL, &image[..length]);
    if reading.refusal.number == 0 {
        return print_front(rt, reading.content, fund, svg);
    }
    words::list_image(rt, Edition::TERMINAL, &image[..length])
}

// Prints the front of the card in the file that word i names.
fn print_file<R: Outside>(rt: &R, i: usize, fund: bool, svg: bool) -> u8
    ensures { result < 4 }
{
    let mut path = [0u8; 4096];
    let length = files::arg(rt, i, &mut path);
    let Some(mut file) = files::open(rt, &path[..length]) else {
        return words::FAILED;
    };
    print_card(rt, &mut file, fund, svg)
}

// What an option asks for: the fund name, or a picture.
#[derive(Clone, Copy)]
enum Asked {
    Fund,
    Svg,
}

// What word i asks for, if it is an option.
fn option_at<R: Outside>(rt: &R, i: usize) -> Option<Asked> {
    let mut word = [0u8; 16];
    let length = files::arg(rt, i, &mut word);
    match &word[..length] {
        b"--fund" => Some(Asked::Fund),
        b"--svg" => Some(Asked::Svg),
        _ => None,
    }
}

pub fn run<R: Outside>(rt: &R) -> u8
    ensures { result < 4 }
{
    match (files::arg_count(rt), option_at(rt, 2), option_at(rt, 3)) {
        (3, _, _) => print_file(rt, 2, false, false),
        (4, Some(Asked::Fund), _) => print_file(rt, 3, true, false),
        (4, Some(Asked::Svg), _) => print_file(rt, 3, false, true),
        (5, Some(Asked::Fund), Some(Asked::Svg)) | (5, Some(Asked::Svg), Some(Asked::Fund)) => {
            print_file(rt, 4, true, true)
        }
        _ => words::misused(
            rt,
            b"front takes one file, and before it --fund, --svg or both",
        ),
    }
}
