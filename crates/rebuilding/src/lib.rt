// The second card rebuilt: the first card, changed to what a record has at the objects and addresses that a list of differences names.
// Any edition, image, list, record and room may be lent; that the record holds what the second card has there is the caller's.
// What the list does not name is taken from the first card, whatever stands there in the record; the record's number is not looked at.
#![tactic(auto)]

mod listed;
mod mending;

ghost use Rattle.std.specs.Prelude.{◌≡◌, length};
ghost use Rattle.rebuilding.specs.Rebuilding.{rebuild_refusal, rebuild_room};

use card::{Record, Refusal};
use edition::Edition;

// Fills a room of 256 bytes with the first card, changed to what the record has at the listed objects and addresses.
pub fn rebuild(
    edition: Edition,
    first: &[u8],
    entries: &[u32],
    second: Record,
    room: &mut [u8],
) -> Refusal
    ensures value { result ≡ rebuild_refusal edition first.now entries.now second (length room.old) }
    ensures room_after { room.new ≡ rebuild_room edition first.now entries.now second room.old }
{
    if room.len() != 256 {
        return Refusal::new(20, 0, 0);
    }
    let reading = reader::read(edition, first);
    let refusal = reading.refusal;
    if refusal.number != 0 {
        return refusal;
    }
    let content = reading.content;
    writer::write(
        edition,
        mending::mend(entries, content, second, edition.number),
        room,
    )
}
