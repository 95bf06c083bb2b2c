// The objects of a template, put one after the other into a room of one's own.
ghost use Rattle.std.specs.Prelude.{◌≡◌, ◌++◌, ◌+◌, ◌≤◌, length, get_or, take};
ghost use Rattle.card.specs.Content.{value_of, content_of};
ghost use Rattle.card.specs.Layout.{object, objects_of};
ghost use Rattle.wire_records.specs.Records.{object_from, lent_record};
ghost use Rattle.writer.specs.Storing.{Short};

// Writes one object from `at` on, or nothing where it is absent. Answers the place behind it.
// All 28 bytes are copied, which is cheaper than as many as there are: what stands behind the object is written over.
fn write_object(room: &mut [u8], at: usize, tag: u8, item: &[u8]) -> usize
    requires { (length item.now ≡ 29) × (get_or item.now 0 0 ≤ 28) × (at + 30 ≤ length room.old) }
    ensures value { result ≡ at + length (object tag (value_of (object_from item.now))) }
    ensures room_after { take result room.new ≡ take at room.old ++ object tag (value_of (object_from item.now)) }
{
    let n = item[0];
    if n == 0 {
        return at;
    }
    let mut value = [0u8; 28];
    ground_room::put(&mut value, 0, &item[1..]);
    room[at] = tag;
    room[at + 1] = n;
    ground_room::put(room, at + 2, &value);
    at + 2 + n as usize
}

// Writes the objects of a record of 479 bytes in card order from `at` on. Answers the place behind the last.
pub(crate) fn write_objects(room: &mut [u8], at: usize, bytes: &[u8]) -> usize
    requires { (length bytes.now ≡ 479) × Short (lent_record bytes.now).objects × (at + length (objects_of (content_of (lent_record bytes.now))) + 30 ≤ length room.old) }
    ensures value { result ≡ at + length (objects_of (content_of (lent_record bytes.now))) }
    ensures room_after { take result room.new ≡ take at room.old ++ objects_of (content_of (lent_record bytes.now)) }
{
    let mut place = at;
    for i in 0..16 {
        let tag = edition_tags::tag_of(i);
        let start = 14 + i * 29;
        let end = start + 29;
        place = write_object(room, place, tag, &bytes[start..end]);
    }
    place
}
