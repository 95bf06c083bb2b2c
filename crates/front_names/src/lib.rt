// The two name lines of a front.
// Any room, place and record may be lent. Whether the record has a front is the caller's to ask.
// All names stand on the first line, if it holds them; else the family name alone is on the second. Forenames longer than a line put nothing.
#![tactic(auto)]

ghost use Rattle.std.specs.Prelude.{◌≡◌, ◌++◌, ◌+◌, ◌≤◌, length};
ghost use Rattle.ground.specs.Rooms.{room_with, behind_put, Put};
ghost use Rattle.card.specs.Content.{value_of, content_of};
ghost use Rattle.front.specs.Lines.{value, forenames, second_of, name_line};
ghost use Rattle.front.specs.Placing.{behind, placed, capped, names_put};

use card::{Object, Record};

// How many bytes the forenames have, and 29 if a line does not hold them.
fn forenames_end(content: Record) -> usize
    ensures { result ≡ capped (length (forenames (content_of content))) }
{
    let title = content.objects[6];
    let given = content.objects[7];
    let prefix = content.objects[8];
    let behind_title = front_fields::line_end(0, title);
    let behind_given = front_fields::line_end(behind_title, given);
    front_fields::line_end(behind_given, prefix)
}

// Puts a part behind names of so many bytes, with a single blank between.
fn put_part(room: &mut [u8], at: usize, names: usize, part: Object) -> usize
    requires { (length (value_of part) ≤ 28) × (at + length (behind names (value_of part)) ≤ length room.old) }
    ensures { Put room.old at (behind names (value_of part)) room.new result }
{
    let n = part.length as usize;
    if (names == 0) | (n == 0) {
        return front_fields::put_field(room, at, n, part);
    }
    let place = ground_room::put_byte(room, at, b' ');
    front_fields::put_field(room, place, n, part)
}

// Puts title, given name and name prefix.
fn put_forenames(room: &mut [u8], at: usize, content: Record) -> usize
    requires { (length (forenames (content_of content)) ≤ 28) × (at + 28 ≤ length room.old) }
    ensures { Put room.old at (forenames (content_of content)) room.new result }
{
    let title = content.objects[6];
    let given = content.objects[7];
    let prefix = content.objects[8];
    let behind_title = put_part(room, at, 0, title);
    let behind_given = put_part(room, behind_title, behind_title - at, given);
    put_part(room, behind_given, behind_given - at, prefix)
}

// Puts both name lines behind each other, of forenames that a line holds.
fn put_lines(room: &mut [u8], at: usize, content: Record) -> usize
    requires { (length (forenames (content_of content)) ≤ 28) × (at + 56 ≤ length room.old) }
    ensures { Put room.old at (name_line (content_of content) ++ placed 28 (second_of (forenames (content_of content)) (value (content_of content) 9))) room.new result }
{
    let end = put_forenames(room, at, content);
    let family = content.objects[9];
    if front_fields::line_end(end - at, family) <= 28 {
        let behind_family = put_part(room, end, end - at, family);
        return ground_room::fill(room, behind_family, at + 56 - behind_family, b' ');
    }
    let second = ground_room::fill(room, end, at + 28 - end, b' ');
    front_fields::put_field(room, second, 28, family)
}

// Puts both name lines.
pub fn put_names(room: &mut [u8], at: usize, content: Record) -> usize
    ensures value { result ≡ behind_put room.old at (names_put (content_of content)) }
    ensures room_after { room.new ≡ room_with room.old at (names_put (content_of content)) }
{
    if forenames_end(content) > 28 {
        return at;
    }
    if !front_fields::has_places(room.len(), at, 56) {
        return at;
    }
    put_lines(room, at, content)
}
