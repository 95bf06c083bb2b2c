// The call that reads an image into a record of 479 bytes, under a table of 103 bytes.
// Any table, image and room may be lent, of whatever size: what has not its size is refused with a number.
// The number is told even where the room is left: 20 for the room comes before all that is amiss with the card.
#![tactic(auto)]

ghost use Rattle.std.specs.Prelude.{◌≡◌, [], ◌∷◌, ◌++◌, ◌+◌, ◌≤◌, length, get_or};
ghost use Rattle.ground.specs.Pieces.{joined};
ghost use Rattle.ground.specs.Rooms.{Put};
ghost use Rattle.card.specs.Content.{record_of};
ghost use Rattle.card.specs.Frame.{free_of};
ghost use Rattle.card.specs.Reading.{content_at};
ghost use Rattle.reader_steps.specs.Steps.{values_at, Inside};
ghost use Rattle.wire_records.specs.Records.{record_bytes};
ghost use Rattle.wire.specs.Answers.{packed};
ghost use Rattle.calls_cards.specs.Calls.{table_reading, value_bytes, kvk_read, kvk_read_room};

use card::Refusal;

// Puts the object of a value: its length, and the value with zeros behind it.
fn put_value(room: &mut [u8], at: usize, value: &[u8]) -> usize
    requires { (at + 29 ≤ length room.old) × (length value.now ≤ 28) }
    ensures put { Put room.old at (value_bytes value.now) room.new result }
    ensures value { result ≡ at + 29 }
{
    let mut bytes = [0u8; 28];
    ground_room::put(&mut bytes, 0, value);
    let start = ground_room::put_byte(room, at, value.len() as u8);
    ground_room::put(room, start, &bytes)
}

// Puts the sixteen objects.
fn put_values(
    room: &mut [u8],
    at: usize,
    image: &[u8],
    starts: [u8; 16],
    lengths: [u8; 16],
) -> usize
    requires { (at + 464 ≤ length room.old) × Inside image.now starts lengths }
    ensures put { Put room.old at (joined value_bytes (values_at image.now starts lengths)) room.new result }
    ensures value { result ≡ at + 464 }
{
    let mut place = at;
    for k in 0..16 {
        let start = starts[k] as usize;
        let stop = start + lengths[k] as usize;
        place = put_value(room, place, &image[start..stop]);
    }
    place
}

// Puts what stands in front of the objects: 14 bytes.
fn put_front(room: &mut [u8], image: &[u8]) -> usize
    requires { (14 ≤ length room.old) × (length image.now ≡ 256) }
    ensures put { Put room.old 0 (get_or image.now 0 0 ∷ (free_of image.now ++ (get_or image.now 255 0 ∷ []))) room.new result }
    ensures value { result ≡ 14 }
{
    let behind_first = ground_room::put_byte(room, 0, image[0]);
    let behind_chip = ground_room::put(room, behind_first, &image[6..17]);
    let behind_free = ground_room::put_byte(room, behind_chip, image[29]);
    ground_room::put_byte(room, behind_free, image[255])
}

fn put_record(room: &mut [u8], image: &[u8], starts: [u8; 16], lengths: [u8; 16], number: u8)
    requires { (length room.old ≡ 479) × (length image.now ≡ 256) × Inside image.now starts lengths }
    ensures { room.new ≡ record_bytes (record_of number (content_at image.now (values_at image.now starts lengths))) }
{
    let start = put_front(room, image);
    let end = put_values(room, start, image, starts, lengths);
    ground_room::put_byte(room, end, number);
}

// Fills a room of 479 bytes with the record of an image, with zeros where the image is refused.
fn fill(table: &[u8], image: &[u8], room: &mut [u8]) -> Refusal
    requires { length room.old ≡ 479 }
    ensures value { result ≡ (table_reading table.now image.now).refusal }
    ensures room_after { room.new ≡ record_bytes (table_reading table.now image.now).content }
{
    let places = calls_places::places_of(table, image);
    let refusal = places.refusal;
    if refusal.number != 0 {
        ground_room::fill(room, 0, 479, 0);
        return refusal;
    }
    let starts = places.starts;
    let lengths = places.lengths;
    put_record(room, image, starts, lengths, table[102]);
    Refusal::NONE
}

// Reads an image into a record of 479 bytes, under a table of 103 bytes.
pub fn read(table: &[u8], image: &[u8], room: &mut [u8]) -> u64
    ensures value { result ≡ packed (kvk_read table.now image.now room.old) }
    ensures room_after { room.new ≡ kvk_read_room table.now image.now room.old }
{
    if room.len() != 479 {
        return wire::pack(Refusal::new(20, 0, 0));
    }
    wire::pack(fill(table, image, room))
}
