// Lists the card on standard input: under issue, or under terminal with `terminal` as first argument; later ones are ignored.
// What is read and written there is whatever the caller has put there; nothing is said on standard error.
// Any other first argument gives a refusal, and not a byte of the input is taken. A card with something behind it is none: it is refused with 1.
#![tactic(auto)]

use edition::Edition;
use files::Outside;

fn list_input<R: Outside>(rt: &R, edition: Edition) {
    // One byte more than a card has: a card with something behind it is none.
    let mut image = [0u8; 257];
    let length = files::read_full(&mut rt.reader(), &mut image);
    let mut room = [0u8; 521];
    let size = listing::list(edition, &image[..length], &mut room);
    files::write_all(rt, &room[..size]);
}

// The edition with this number, 1 or 2; of another number nothing is read.
fn list_under<R: Outside>(rt: &R, number: u64) {
    match number {
        1 => list_input(rt, Edition::TERMINAL),
        2 => list_input(rt, Edition::ISSUE),
        _ => {
            files::write_all(rt, b"REFUSED 2 0 00 0 0\n");
        }
    }
}

fn main(rt: HostRuntime) {
    // An argument that is longer than the room is told as one of no bytes, which is no name.
    let mut word = [0u8; 8];
    let length = files::arg(&rt, 1, &mut word);
    list_under(
        &rt,
        files::choose(files::arg_count(&rt) > 1, &word[..length]),
    );
}
