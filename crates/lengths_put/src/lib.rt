// The length field of an object, put in the shortest form.
// Any room and place may be lent; whether it fits is the caller's to know.
// What does not fit is not put at all, and the answer is then the place that was given.
#![tactic(auto)]

ghost use Rattle.std.specs.Prelude.{◌≡◌};
ghost use Rattle.ground.specs.Rooms.{room_with, behind_put};
ghost use Rattle.lengths.specs.Lengths.{length_field};

// Puts the field of a length from `at` on and answers the place behind it.
pub fn put_length(room: &mut [u8], at: usize, n: u16) -> usize
    ensures value { result ≡ behind_put room.old at (length_field n) }
    ensures room_after { room.new ≡ room_with room.old at (length_field n) }
{
    if n <= 127 {
        return ground_room::put_byte(room, at, n as u8);
    }
    if n <= 255 {
        return ground_room::put(room, at, &[0x81, n as u8]);
    }
    ground_room::put(room, at, &[0x82, (n / 256) as u8, (n % 256) as u8])
}
