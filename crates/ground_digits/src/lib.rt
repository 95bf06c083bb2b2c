// Numbers put into a room as digits: a byte in hex, a number in decimal.
// Any room and place may be lent. Whether it fits is the caller's to know: what does not fit is not put at all.
// In decimal only the last three digits are put, where a number has more.
#![tactic(auto)]

ghost use Rattle.std.specs.Prelude.{◌≡◌, ◌<◌};
ghost use Rattle.ground.specs.Rooms.{room_with, behind_put, hex_digit, hex, digit, decimal};

fn hex_digit(n: u8) -> u8
    requires { n < 16 }
    ensures { result ≡ hex_digit n }
{
    if n < 10 { b'0' + n } else { b'A' - 10 + n }
}

// Puts a byte as two hex digits.
#[tactic(auto, unfolding(ground::specs::Rooms::hex))]
pub fn put_hex(room: &mut [u8], at: usize, byte: u8) -> usize
    ensures value { result ≡ behind_put room.old at (hex byte) }
    ensures room_after { room.new ≡ room_with room.old at (hex byte) }
{
    ground_room::put(room, at, &[hex_digit(byte / 16), hex_digit(byte % 16)])
}

// The last decimal digit.
fn last_digit(n: usize) -> u8
    ensures { result ≡ digit n }
{
    b'0' + (n % 10) as u8
}

// Puts a number in decimal: the last three digits, where it has more.
#[tactic(auto, unfolding(ground::specs::Rooms::decimal))]
pub fn put_decimal(room: &mut [u8], at: usize, n: usize) -> usize
    ensures value { result ≡ behind_put room.old at (decimal n) }
    ensures room_after { room.new ≡ room_with room.old at (decimal n) }
{
    if n < 10 {
        return ground_room::put(room, at, &[last_digit(n)]);
    }
    if n < 100 {
        return ground_room::put(room, at, &[last_digit(n / 10), last_digit(n)]);
    }
    ground_room::put(
        room,
        at,
        &[last_digit(n / 100), last_digit(n / 10), last_digit(n)],
    )
}
