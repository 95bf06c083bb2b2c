// The list: the objects in card order, then the bytes by address.
ghost use Rattle.std.specs.Prelude.{◌≡◌, ◌+◌, ◌≤◌, ◌<◌, length};
ghost use Rattle.ground.specs.Rooms.{Put};
ghost use Rattle.reader_steps.specs.Steps.{values_at, Inside};
ghost use Rattle.differences.specs.Steps.{some, object_words, byte_words};

use crate::entries;

// Puts one entry at a place of the list, if there is one. Answers the place behind it.
fn put_entry(room: &mut [u32], at: usize, entry: u32) -> usize
    requires { at < length room.old }
    ensures { Put room.old at (some entry) room.new result }
{
    if entry == 0 {
        return at;
    }
    room[at] = entry;
    at + 1
}

// Puts the entries of the objects: the first card's values begin at `starts`, the second's at `others`. Answers how many there are.
pub(crate) fn put_objects(
    room: &mut [u32],
    first: &[u8],
    starts: [u8; 16],
    lengths: [u8; 16],
    second: &[u8],
    others: [u8; 16],
    sizes: [u8; 16],
) -> usize
    requires { (16 ≤ length room.old) × Inside first.now starts lengths × Inside second.now others sizes }
    ensures put { Put room.old 0 (object_words (values_at first.now starts lengths) (values_at second.now others sizes)) room.new result }
    ensures upper_bound { result ≤ 16 }
{
    let mut count: usize = 0;
    for i in 0..16 {
        let a = starts[i] as usize;
        let b = a + lengths[i] as usize;
        let c = others[i] as usize;
        let d = c + sizes[i] as usize;
        let entry = entries::object_entry(edition_tags::tag_of(i), &first[a..b], &second[c..d]);
        count = put_entry(room, count, entry);
    }
    count
}

// Address 0, the free bytes, the last byte.
const ADDRESSES: [usize; 14] = [0, 6, 7, 8, 9, 10, 11, 12, 13, 14, 15, 16, 29, 255];

// Puts the entries of the bytes that belong to no object. Answers the place behind them.
pub(crate) fn put_bytes(room: &mut [u32], at: usize, first: &[u8], second: &[u8]) -> usize
    requires { (at + 14 ≤ length room.old) × (length first.now ≡ 256) × (length second.now ≡ 256) }
    ensures { Put room.old at (byte_words first.now second.now) room.new result }
{
    let mut count = at;
    for address in ADDRESSES {
        let entry = entries::byte_entry(address, first[address], second[address]);
        count = put_entry(room, count, entry);
    }
    count
}
