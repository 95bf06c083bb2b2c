// The fourth line of a front: fund number, insured number, status, addition and validity.
// Any room, place and record may be lent. Whether the record has a front is the caller's to ask.
// A value that is longer than its places is cut there, so the line has 28 characters whatever it is made of.
#![tactic(auto)]

ghost use Rattle.std.specs.Prelude.{◌≡◌, ◌+◌, ◌≤◌, length};
ghost use Rattle.ground.specs.Rooms.{room_with, behind_put, Put};
ghost use Rattle.card.specs.Content.{content_of};
ghost use Rattle.front.specs.Placing.{state_put, numbers_put};

use card::Record;

// Puts status, addition and validity.
fn put_state(room: &mut [u8], at: usize, content: Record) -> usize
    requires { at + 9 ≤ length room.old }
    ensures { Put room.old at (state_put (content_of content)) room.new result }
{
    let status = front_shown::shown_status(content.objects[4]);
    let addition = front_shown::shown_addition(content.objects[5]);
    let validity = content.objects[15];
    let behind_status = front_fields::put_field(room, at, 4, status);
    let behind_addition = ground_room::put_byte(room, behind_status, addition);
    front_fields::put_field(room, behind_addition, 4, validity)
}

// Puts the fourth line.
pub fn put_numbers(room: &mut [u8], at: usize, content: Record) -> usize
    ensures value { result ≡ behind_put room.old at (numbers_put (content_of content)) }
    ensures room_after { room.new ≡ room_with room.old at (numbers_put (content_of content)) }
{
    if !front_fields::has_places(room.len(), at, 28) {
        return at;
    }
    let number = content.objects[1];
    let insured = content.objects[3];
    let eighth = front_fields::put_field(room, at, 7, number);
    let twentieth = front_fields::put_field(room, eighth, 12, insured);
    put_state(room, twentieth, content)
}
