// The text of one card: ACCEPTED and the objects that are present, or REFUSED and why.
// Any edition, image and room may be lent; which edition, and where the text goes, is the caller's.
// A room that the longest listing would not fit is left as it is, whatever this card needs.
#![tactic(auto)]

mod cause;
mod object_lines;
mod text;

ghost use Rattle.std.specs.Prelude.{◌≡◌, ◌≤◌, length};
ghost use Rattle.listing.specs.Listing.{listing};
ghost use Rattle.listing.specs.Rooms.{listed_size, listed_room, Within, shown_of};
ghost use Rattle.ground.specs.Rooms.{Put};

use card::Reading;
use edition::Edition;

// The longest listing: `ACCEPTED` and sixteen lines of a value of 28 bytes.
const LONGEST: usize = 9 + 16 * 32;

// Writes the listing of an image at the start of the room and answers its length. A room that may be too small is left
// as it is, and the answer is 0.
pub fn list(edition: Edition, image: &[u8], room: &mut [u8]) -> usize
    ensures value { result ≡ listed_size edition image.now room.old }
    ensures room_after { room.new ≡ listed_room edition image.now room.old }
    ensures within { Within result room.new }
{
    if room.len() < LONGEST {
        return 0;
    }
    put_reading(room, reader::read(edition, image))
}

// Writes what a reading says at the start of the room. Answers how many bytes it takes.
fn put_reading(room: &mut [u8], reading: Reading) -> usize
    requires { 521 ≤ length room.old }
    ensures put { Put room.old 0 (listing reading.refusal (shown_of reading.content)) room.new result }
    ensures upper_bound { result ≤ 521 }
{
    let refusal = reading.refusal;
    if refusal.number != 0 {
        return cause::put_refusal(room, 0, refusal);
    }
    let start = text::put_line(room, 0, b"ACCEPTED");
    object_lines::put_objects(room, start, reading.content)
}
