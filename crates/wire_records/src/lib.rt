// A record as 479 bytes, and back.
// What a record says is taken as it stands: whether it may be written, others ask.
// Of bytes of another size comes the empty record; a room of another size is left as it is.
#![tactic(auto)]

ghost use Rattle.std.specs.Prelude.{◌≡◌, [], ◌∷◌, ◌++◌, map, ℕ, ◌+◌, ◌≤◌, ◌<◌, length, get_or};
ghost use Rattle.card.specs.Content.{no_object};
ghost use Rattle.ground.specs.Pieces.{pieces, joined};
ghost use Rattle.ground.specs.Rooms.{Put};
ghost use Rattle.wire_records.specs.Records.{object_from, lent_record, object_bytes, record_room};

use card::{Object, Record};

// The object of a length and 28 bytes.
fn object_of(part: &[u8]) -> Object
    requires { length part.now ≡ 29 }
    ensures { result ≡ object_from part.now }
{
    let mut value = [0u8; 28];
    ground_room::put(&mut value, 0, &part[1..]);
    Object {
        length: part[0],
        bytes: value,
    }
}

fn objects_of(part: &[u8]) -> [Object; 16]
    requires { 464 ≤ length part.now }
    ensures { result ≡ map object_from (pieces 29 16 part.now) }
{
    let mut objects = [Object::ABSENT; 16];
    for k in 0..16 {
        let at = k * 29;
        let end = at + 29;
        objects[k] = object_of(&part[at..end]);
    }
    objects
}

// The record of 479 bytes; of another size, the empty one.
pub fn record_of(bytes: &[u8]) -> Record
    ensures { result ≡ lent_record bytes.now }
{
    if bytes.len() != 479 {
        return Record::empty();
    }
    let mut free = [0u8; 12];
    ground_room::put(&mut free, 0, &bytes[1..13]);
    Record {
        first: bytes[0],
        free,
        last: bytes[13],
        objects: objects_of(&bytes[14..]),
        number: bytes[478],
    }
}

fn put_object(room: &mut [u8], at: usize, item: Object) -> usize
    requires { at + 29 ≤ length room.old }
    ensures put { Put room.old at (object_bytes item) room.new result }
    ensures value { result ≡ at + 29 }
{
    let value = item.bytes;
    let start = ground_room::put_byte(room, at, item.length);
    ground_room::put(room, start, &value)
}

fn put_objects(room: &mut [u8], at: usize, content: Record) -> usize
    requires { at + 464 ≤ length room.old }
    ensures put { Put room.old at (joined object_bytes content.objects) room.new result }
    ensures value { result ≡ at + 464 }
    ensures by_index { (j : ℕ) → j < 16 → length (get_or content.objects j no_object).bytes ≡ 28 }
{
    let mut place = at;
    for item in &content.objects {
        place = put_object(room, place, *item);
    }
    place
}

// Puts what stands in front of the objects: 14 bytes.
fn put_ends(room: &mut [u8], content: Record) -> usize
    requires { 14 ≤ length room.old }
    ensures put { Put room.old 0 (content.first ∷ (content.free ++ (content.last ∷ []))) room.new result }
    ensures value { result ≡ 14 }
{
    let free = content.free;
    let behind_first = ground_room::put_byte(room, 0, content.first);
    let behind_free = ground_room::put(room, behind_first, &free);
    ground_room::put_byte(room, behind_free, content.last)
}

// Fills a room of 479 bytes with a record, which comes back from them; a room of another size is left as it is.
pub fn write_record(content: Record, room: &mut [u8])
    ensures room_after { room.new ≡ record_room content room.old }
    ensures room_after_2 { length room.old ≡ 479 → lent_record room.new ≡ content }
{
    if room.len() != 479 {
        return;
    }
    let start = put_ends(room, content);
    let end = put_objects(room, start, content);
    ground_room::put_byte(room, end, content.number);
}
