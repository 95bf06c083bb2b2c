// build OUT CARD.. and add FILE CARD.
ghost use Rattle.std.specs.Prelude.{◌<◌};

use crate::{inputs, refusals};
use card::Refusal;
use files::Outside;

// Puts the card in the file that word i names at its place among the images.
fn read_card<R: Outside>(rt: &R, i: usize, position: usize, images: &mut [u8]) -> u8
    ensures { result < 4 }
{
    let Some(mut file) = inputs::open_at(rt, i) else {
        return words::FAILED;
    };
    // One byte more than a card has: a card with something behind it is none.
    let mut image = [0u8; 257];
    let size = files::read_full(&mut file, &mut image);
    if size != 256 {
        refusals::say_image(rt, position, &image[..size]);
        return refusals::write_refusal(rt, 41, position);
    }
    ground_room::put(images, position % 256 * 256, &image[..size]);
    words::DONE
}

// Puts the cards that words from 4 on name end to end.
fn read_cards<R: Outside>(rt: &R, count: usize, images: &mut [u8]) -> u8
    requires { count < 256 }
    ensures { result < 4 }
{
    for k in 0..count {
        let status = read_card(rt, k + 4, k, images);
        if status != words::DONE {
            return status;
        }
    }
    words::DONE
}

// Writes a new file over the one that word 3 names.
fn replace<R: Outside>(rt: &R, room: &[u8], size: usize) -> u8
    ensures { result < 4 }
{
    if inputs::write_file(rt, 3, room, size) {
        words::DONE
    } else {
        words::FAILED
    }
}

// Builds the file of some images.
fn build_file<R: Outside>(rt: &R, images: &[u8]) -> u8
    ensures { result < 4 }
{
    let mut room = [0u8; 65536];
    match day_build::build(images, &mut room) {
        Ok(size) => replace(rt, &room, size),
        Err(refusal) => refusals::tell(rt, refusal, images),
    }
}

// Builds a file from the cards that words from 4 on name.
pub(crate) fn build<R: Outside>(rt: &R, words: usize) -> u8
    ensures { result < 4 }
{
    if words < 4 {
        return words::misused(rt, b"day build takes a file and its cards");
    }
    let count = words - 4;
    if count > 255 {
        return words::misused(rt, b"day build takes at most 200 cards");
    }
    let mut images = [0u8; 65536];
    let status = read_cards(rt, count, &mut images);
    if status != words::DONE {
        return status;
    }
    let size = count * 256;
    build_file(rt, &images[..size])
}

// Tells why a card cannot be added: an image of the file is refused, or the card itself.
fn refuse_add<R: Outside>(rt: &R, refusal: Refusal, file: &[u8], card: &[u8]) -> u8
    ensures { result < 4 }
{
    if (refusal.number == 41) & day_read::count(file).is_ok() {
        refusals::say_image(rt, refusal.place, card);
        return refusals::write_refusal(rt, 41, refusal.place);
    }
    refusals::tell(rt, refusal, file)
}

// Adds a card to a file.
fn add_card<R: Outside>(rt: &R, file: &[u8], card: &[u8]) -> u8
    ensures { result < 4 }
{
    let mut room = [0u8; 65536];
    match day_add::add(file, card, &mut room) {
        Ok(size) => replace(rt, &room, size),
        Err(refusal) => refuse_add(rt, refusal, file, card),
    }
}

// Adds the card in the file that word 4 names to the file that word 3 names.
pub(crate) fn add<R: Outside>(rt: &R) -> u8
    ensures { result < 4 }
{
    let one = inputs::open_at(rt, 3);
    let two = inputs::open_at(rt, 4);
    let (Some(mut old), Some(mut new)) = (one, two) else {
        return words::FAILED;
    };
    let mut file = [0u8; 65536];
    let size = files::read_full(&mut old, &mut file);
    let mut card = [0u8; 257];
    let length = files::read_full(&mut new, &mut card);
    add_card(rt, &file[..size], &card[..length])
}
