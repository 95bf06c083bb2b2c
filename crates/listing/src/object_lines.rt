// The lines of the objects.
ghost use Rattle.std.specs.Prelude.{◌≡◌, ◌+◌, ◌*◌, ◌≤◌, length};
ghost use Rattle.card.specs.Layout.{object_tags};
ghost use Rattle.listing.specs.Listing.{object_line, object_lines};
ghost use Rattle.listing.specs.Rooms.{shown, shown_of};
ghost use Rattle.ground.specs.Rooms.{Put};

use crate::text;
use card::{Object, Record};

// How many bytes of an object are listed: no more than the 28 that it has.
fn shown_length(item: Object) -> usize
    ensures value { result ≡ length (shown item) }
    ensures upper_bound { result ≤ 28 }
{
    if item.length < 28 {
        item.length as usize
    } else {
        28
    }
}

// Writes the line of one object from `at` on, or nothing where it is absent. Answers the place behind it.
fn put_object(room: &mut [u8], at: usize, tag: u8, item: Object) -> usize
    requires { at + 32 ≤ length room.old }
    ensures put { Put room.old at (object_line tag (shown item)) room.new result }
    ensures upper_bound { result ≤ at + 32 }
{
    let n = shown_length(item);
    if n == 0 {
        return at;
    }
    let behind_tag = ground_digits::put_hex(room, at, tag);
    let start = ground_room::put_byte(room, behind_tag, b' ');
    let bytes = item.bytes;
    text::put_line(room, start, &bytes[..n])
}

// Writes the lines of the objects in card order from `at` on. Answers the place behind the last.
pub(crate) fn put_objects(room: &mut [u8], at: usize, content: Record) -> usize
    requires { at + 16 * 32 ≤ length room.old }
    ensures put { Put room.old at (object_lines object_tags (shown_of content)) room.new result }
    ensures upper_bound { result ≤ at + 16 * 32 }
{
    let mut place = at;
    for (i, item) in content.objects.iter().enumerate() {
        place = put_object(room, place, edition_tags::tag_of(i), *item);
    }
    place
}
