// The line of a refusal. Each function writes from `at` on and answers the place behind what it wrote.
ghost use Rattle.std.specs.Prelude.{◌+◌, ◌≤◌, length};
ghost use Rattle.listing.specs.Listing.{blank, cause, ends, refused_line};
ghost use Rattle.ground.specs.Rooms.{Put, hex, decimal};

use card::Refusal;

// Writes a blank and a number.
fn put_number(room: &mut [u8], at: usize, n: usize) -> usize
    requires { at + 4 ≤ length room.old }
    ensures { Put room.old at (blank (decimal n)) room.new result }
{
    let start = ground_room::put_byte(room, at, b' ');
    ground_digits::put_decimal(room, start, n)
}

// Writes a blank and a tag.
fn put_tag(room: &mut [u8], at: usize, tag: u8) -> usize
    requires { at + 3 ≤ length room.old }
    ensures { Put room.old at (blank (hex tag)) room.new result }
{
    let start = ground_room::put_byte(room, at, b' ');
    ground_digits::put_hex(room, start, tag)
}

// Writes number, place and tag.
fn put_cause(room: &mut [u8], at: usize, refusal: Refusal) -> usize
    requires { at + 11 ≤ length room.old }
    ensures { Put room.old at (cause refusal) room.new result }
{
    let behind_number = put_number(room, at, refusal.number as usize);
    let behind_place = put_number(room, behind_number, refusal.place);
    put_tag(room, behind_place, refusal.tag)
}

// Writes shortest, longest and the end of the line.
fn put_ends(room: &mut [u8], at: usize, refusal: Refusal) -> usize
    requires { at + 9 ≤ length room.old }
    ensures { Put room.old at (ends refusal) room.new result }
{
    let behind_shortest = put_number(room, at, refusal.shortest as usize);
    let behind_longest = put_number(room, behind_shortest, refusal.longest as usize);
    ground_room::put_byte(room, behind_longest, b'\n')
}

pub(crate) fn put_refusal(room: &mut [u8], at: usize, refusal: Refusal) -> usize
    requires { at + 27 ≤ length room.old }
    ensures put { Put room.old at (refused_line refusal) room.new result }
    ensures upper_bound { result ≤ at + 27 }
{
    let behind_word = ground_room::put(room, at, b"REFUSED");
    let behind_cause = put_cause(room, behind_word, refusal);
    put_ends(room, behind_cause, refusal)
}
