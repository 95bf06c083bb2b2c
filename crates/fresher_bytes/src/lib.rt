// A comparison as eight bytes.
// Any comparison and any room may be lent. What the bytes mean is said where they are defined.
// A room of another size than 8 is left as it is.
#![tactic(auto)]

ghost use Rattle.std.specs.Prelude.{◌≡◌, cond, length};
ghost use Rattle.fresher.specs.Bytes.{twos, fresher_bytes, fresher_room};

use fresher::Fresher;

// A signed number in 32 bits.
fn bits(months: i32) -> u32
    ensures { result ≡ twos months }
{
    let wide = months as i64 + 4_294_967_296;
    (wide as u64 % 4_294_967_296) as u32
}

fn card_of(second: bool) -> u8
    ensures { result ≡ cond second 2 1 }
{
    if second { 2 } else { 1 }
}

fn fill(fresher: Fresher, room: &mut [u8])
    requires { length room.old ≡ 8 }
    ensures { room.new ≡ fresher_bytes fresher }
{
    let months = bits(fresher.months);
    room[0] = card_of(fresher.second);
    room[1] = fresher.start;
    room[2] = fresher.length;
    room[3] = 0;
    room[4] = (months >> 24) as u8;
    room[5] = ((months >> 16) % 256) as u8;
    room[6] = ((months >> 8) % 256) as u8;
    room[7] = (months % 256) as u8;
}

// Fills a room of 8 bytes; one of another size is left as it is.
pub fn write_fresher(fresher: Fresher, room: &mut [u8])
    ensures { room.new ≡ fresher_room fresher room.old }
{
    if room.len() == 8 {
        fill(fresher, room);
    }
}
