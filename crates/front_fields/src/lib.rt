// The fields of a front: a value put into its places with blanks behind it, and how much of a line names and a part take.
// Any room, place and object may be lent. Which fields a line has is the caller's.
// Of a value that is longer than its places the first bytes are put; a field of more than 28 places is not put at all.
#![tactic(auto)]

ghost use Rattle.std.specs.Prelude.{◌≡◌, cond, leb, ltb, ◌+◌, ◌≤◌, length};
ghost use Rattle.ground.specs.Rooms.{room_with, behind_put, Put};
ghost use Rattle.card.specs.Content.{value_of};
ghost use Rattle.front.specs.Placing.{placed, field_put, spaced_size, line_end};

use card::Object;

// Whether so many places from `at` on are in a room of this size.
pub fn has_places(size: usize, at: usize, places: usize) -> bool
    ensures { result ≡ leb (at + places) size }
{
    if size < places {
        return false;
    }
    at <= size - places
}

fn least(a: usize, b: usize) -> usize
    ensures { result ≡ cond (ltb a b) a b }
{
    if a < b { a } else { b }
}

// The same as put_field, of places that the room has.
fn put_places(room: &mut [u8], at: usize, places: usize, item: Object) -> usize
    requires { (places ≤ 28) × (at + places ≤ length room.old) }
    ensures { Put room.old at (placed places (value_of item)) room.new result }
{
    let n = least(item.length as usize, places);
    let value = item.bytes;
    let behind = ground_room::put(room, at, &value[..n]);
    ground_room::fill(room, behind, at + places - behind, b' ')
}

// Puts a value into so many places, blanks behind it.
pub fn put_field(room: &mut [u8], at: usize, places: usize, item: Object) -> usize
    ensures value { result ≡ behind_put room.old at (field_put places (value_of item)) }
    ensures room_after { room.new ≡ room_with room.old at (field_put places (value_of item)) }
{
    if places > 28 {
        return at;
    }
    if !has_places(room.len(), at, places) {
        return at;
    }
    put_places(room, at, places, item)
}

// How many bytes names and a part have together.
fn spaced_size(names: usize, n: usize) -> usize
    requires { (names ≤ 28) × (n ≤ 255) }
    ensures { result ≡ spaced_size names n }
{
    if (names == 0) | (n == 0) {
        return names + n;
    }
    names + 1 + n
}

// Where a part behind names of so many bytes ends on their line, a single blank between; 29, if the line does not hold it.
pub fn line_end(names: usize, part: Object) -> usize
    ensures { result ≡ line_end names (length (value_of part)) }
{
    if names > 28 {
        return 29;
    }
    let size = spaced_size(names, part.length as usize);
    if size <= 28 { size } else { 29 }
}
