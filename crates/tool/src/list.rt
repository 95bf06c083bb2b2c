// list [EDITION] FILE: lists one card.
ghost use Rattle.std.specs.Prelude.{◌<◌};

use edition::Edition;
use files::Outside;
use std::io::Read;

// Lists the card in an open file.
fn list_card<R: Outside>(rt: &R, edition: Edition, file: &mut impl Read) -> u8
    ensures { result < 4 }
{
    // One byte more than a card has: a card with something behind it is none.
    let mut image = [0u8; 257];
    let length = files::read_full(file, &mut image);
    words::list_image(rt, edition, &image[..length])
}

// Lists the card in the file that word i names.
fn list_file<R: Outside>(rt: &R, edition: Edition, i: usize) -> u8
    ensures { result < 4 }
{
    let mut path = [0u8; 4096];
    let length = files::arg(rt, i, &mut path);
    let Some(mut file) = files::open(rt, &path[..length]) else {
        return words::FAILED;
    };
    list_card(rt, edition, &mut file)
}

pub(crate) fn run<R: Outside>(rt: &R) -> u8
    ensures { result < 4 }
{
    let words = files::arg_count(rt);
    if words == 3 {
        return list_file(rt, words::default_edition(), 2);
    }
    if words != 4 {
        return words::misused(rt, b"list takes one file, and before it an edition");
    }
    let chosen = tables::edition_at(rt, 2);
    if chosen.status != words::DONE {
        return chosen.status;
    }
    list_file(rt, chosen.edition, 3)
}
