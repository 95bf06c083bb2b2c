// The call that fills a room of 32 bytes with the places of an image's objects, under a table of 103 bytes.
// Any table, image and room may be lent, of whatever size: what has not its size is refused with a number.
// A refused image has no places: the room is then filled with zeros.
#![tactic(auto)]

ghost use Rattle.std.specs.Prelude.{◌≡◌};
ghost use Rattle.wire.specs.Answers.{packed};
ghost use Rattle.calls_cards.specs.PlaceCalls.{table_places, kvk_places, kvk_places_room};

use card::{Places, Refusal};

// 1 for the image's size, 2 for the table's.
pub fn places_of(table: &[u8], image: &[u8]) -> Places
    ensures { result ≡ table_places table.now image.now }
{
    if image.len() != 256 {
        return Places::refused(Refusal::new(1, 0, 0));
    }
    if table.len() != 103 {
        return Places::refused(Refusal::new(2, 0, 0));
    }
    reader_places::places_lent(table, image)
}

// Fills a room of 32 bytes with the start and the length of each object of an image.
pub fn places(table: &[u8], image: &[u8], room: &mut [u8]) -> u64
    ensures value { result ≡ packed (kvk_places table.now image.now room.old) }
    ensures room_after { room.new ≡ kvk_places_room table.now image.now room.old }
{
    if room.len() != 32 {
        return wire::pack(Refusal::new(20, 0, 0));
    }
    let places = places_of(table, image);
    wire::write_places(places, room);
    wire::pack(places.refusal)
}
