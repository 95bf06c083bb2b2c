// A table of places as 32 bytes.
ghost use Rattle.std.specs.Prelude.{◌≡◌};
ghost use Rattle.wire.specs.PlaceBytes.{places_room};

use card::Places;

// Fills a room of 32 bytes with the start and the length of each object; a room of another size is left as it is.
pub fn write_places(table: Places, room: &mut [u8])
    ensures { room.new ≡ places_room table room.old }
{
    if room.len() != 32 {
        return;
    }
    let mut place: usize = 0;
    for k in 0..16 {
        let start = table.starts[k];
        let length = table.lengths[k];
        place = ground_room::put(room, place, &[start, length]);
    }
}
