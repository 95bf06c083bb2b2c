// Bytes put into a room: a run, one byte, one byte many times; the answer is the place behind what was put.
// Any room and place may be lent. Whether a put fits is the caller's to know.
// What does not fit is not put at all, and the answer is then the place that was given.
#![tactic(auto)]

ghost use Rattle.std.specs.Prelude.{◌≡◌, [], ◌∷◌, leb, ◌+◌, length, replicate};
ghost use Rattle.ground.specs.Rooms.{room_with, behind_put};

// Whether so many bytes fit from `at` on into a room of this size.
fn fits(size: usize, at: usize, count: usize) -> bool
    ensures { result ≡ leb (at + count) size }
{
    count <= size && at <= size - count
}

#[tactic(auto, using(ground::proofs::Stores::lent_part_back), unfolding(ground::specs::Rooms::room_with, ground::specs::Rooms::behind_put))]
pub fn put(room: &mut [u8], at: usize, source: &[u8]) -> usize
    ensures value { result ≡ behind_put room.old at source.now }
    ensures room_after { room.new ≡ room_with room.old at source.now }
{
    if !fits(room.len(), at, source.len()) {
        return at;
    }
    let end = at + source.len();
    room[at..end].copy_from_slice(source);
    end
}

#[tactic(auto, unfolding(ground::specs::Rooms::room_with, ground::specs::Rooms::behind_put))]
pub fn put_byte(room: &mut [u8], at: usize, byte: u8) -> usize
    ensures value { result ≡ behind_put room.old at (byte ∷ []) }
    ensures room_after { room.new ≡ room_with room.old at (byte ∷ []) }
{
    if room.len() <= at {
        return at;
    }
    room[at] = byte;
    at + 1
}

// Stores one byte all over a part. A slice's own `fill` stores its last byte by itself, which costs ten instructions more a call.
fn fill_part(part: &mut [u8], byte: u8)
    ensures { part.new ≡ replicate (length part.old) byte }
{
    for x in part.iter_mut() {
        *x = byte;
    }
}

// Puts one byte so many times.
#[tactic(auto, using(ground::proofs::Stores::lent_part_back), unfolding(ground::specs::Rooms::room_with, ground::specs::Rooms::behind_put))]
pub fn fill(room: &mut [u8], at: usize, count: usize, byte: u8) -> usize
    ensures value { result ≡ behind_put room.old at (replicate count byte) }
    ensures room_after { room.new ≡ room_with room.old at (replicate count byte) }
{
    if !fits(room.len(), at, count) {
        return at;
    }
    let end = at + count;
    fill_part(&mut room[at..end], byte);
    end
}
