// The listings of the cards of a piece.
use crate::counts::Counts;
use edition::Edition;
use files::Outside;
use itoa::Buffer;

// Where the listings end, and what was counted by then.
#[derive(Clone, Copy)]
pub(crate) struct Listed {
    pub size: usize,
    pub counts: Counts,
}

// Writes the first bytes of a room; none where it has not so many.
pub(crate) fn write_first<R: Outside>(rt: &R, room: &[u8], size: usize) -> bool {
    files::write_all(rt, room.get(..size).unwrap_or(b""))
}

// Puts the line with a card's number, where that is asked for.
fn put_number(room: &mut [u8], at: usize, numbered: bool, number: u64) -> usize {
    if !numbered {
        return at;
    }
    let mut digits = Buffer::new();
    let start = ground_room::put(room, at, b"CARD ");
    let end = ground_room::put(room, start, digits.format(number).as_bytes());
    ground_room::put(room, end, b"\n")
}

// Puts the listing of one card, and counts it.
fn put_card(
    room: &mut [u8],
    at: usize,
    edition: Edition,
    image: &[u8],
    numbered: bool,
    counts: Counts,
) -> Listed {
    let mut text = [0u8; 521];
    let length = listing::list(edition, image, &mut text);
    let now = counts.counted(text[0] == b'A');
    let start = put_number(room, at, numbered, now.cards());
    let size = ground_room::put(room, start, &text[..length]);
    Listed { size, counts: now }
}

// Puts the listings of all cards of a piece at the start of the room.
pub(crate) fn put_cards(
    room: &mut [u8],
    edition: Edition,
    piece: &[u8],
    numbered: bool,
    before: Counts,
) -> Listed {
    let mut listed = Listed {
        size: 0,
        counts: before,
    };
    for image in piece.chunks(256) {
        listed = put_card(room, listed.size, edition, image, numbered, listed.counts);
    }
    listed
}
