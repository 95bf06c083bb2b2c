// The template: its tag and length, the objects, the checksum.
ghost use Rattle.std.specs.Prelude.{◌≡◌, ◌++◌, ◌+◌, length, take};
ghost use Rattle.card.specs.Content.{content_of};
ghost use Rattle.card.specs.Layout.{objects_of, template};
ghost use Rattle.wire_records.specs.Records.{lent_record};
ghost use Rattle.writer.specs.Storing.{Lendable};

use crate::body;
use crate::fields::write_length;

// Writes the template from address 30 on. Answers the place behind it.
pub(crate) fn write_template(room: &mut [u8], bytes: &[u8]) -> usize
    requires { Lendable bytes.now × (length room.old ≡ 272) }
    ensures value { result ≡ 30 + length (template (objects_of (content_of (lent_record bytes.now)))) }
    ensures room_after { take result room.new ≡ take 30 room.old ++ template (objects_of (content_of (lent_record bytes.now))) }
{
    let size = object_sizes::size_of(object_sizes::lengths_of(bytes));
    room[30] = 0x60;
    let start = write_length(room, 31, size + 3);
    let end = body::write_objects(room, start, bytes);
    room[end] = 0x8E;
    room[end + 1] = 0x01;
    let place = end + 2;
    let sum = card_checksum::checksum(&room[30..place]);
    room[place] = sum;
    place + 1
}
