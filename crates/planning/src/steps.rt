// The steps of our own plans.
ghost use Rattle.std.specs.Prelude.{◌≡◌, ◌+◌, ◌≤◌, ◌<◌, length};
ghost use Rattle.ground.specs.Rooms.{Put};
ghost use Rattle.rewriting.specs.Plans.{step_to};
ghost use Rattle.planning.specs.Planning.{change, changes, spoiled, rewritten, our_plan};

// The template's tag.
const TAG: u8 = 0x60;

fn step_to(address: usize, byte: u8) -> u32
    requires { address ≤ 255 }
    ensures { result ≡ step_to address byte }
{
    address as u32 * 256 + byte as u32
}

// Puts the step to an address where the byte becomes another, if it does. Answers the place behind it.
fn put_change(room: &mut [u32], at: usize, address: usize, old: u8, new: u8) -> usize
    requires { (at < length room.old) × (address ≤ 255) }
    ensures { Put room.old at (change address old new) room.new result }
{
    if old == new {
        return at;
    }
    room[at] = step_to(address, new);
    at + 1
}

// Puts the steps to all addresses from `base` on where the byte becomes another. Answers the place behind them.
fn put_changes(room: &mut [u32], at: usize, base: usize, old: &[u8], new: &[u8]) -> usize
    requires { (at + length old.now ≤ length room.old) × (base + length old.now ≤ 256) × (length new.now ≡ length old.now) }
    ensures { Put room.old at (changes base old.now new.now) room.new result }
{
    let mut count = at;
    for (i, byte) in old.iter().enumerate() {
        count = put_change(room, count, base + i, *byte, new[i]);
    }
    count
}

// 1 where a byte becomes another, else 0.
fn count_change(old: u8, new: u8) -> usize
    ensures { result ≡ length (change 0 old new) }
{
    if old == new { 0 } else { 1 }
}

// How many bytes become others.
fn count_changes(old: &[u8], new: &[u8]) -> usize
    requires { length new.now ≡ length old.now }
    ensures { result ≡ length (changes 0 old.now new.now) }
{
    let mut count = 0;
    for (i, byte) in old.iter().enumerate() {
        count += count_change(*byte, new[i]);
    }
    count
}

// What stands in the place of the template's tag while the card is written.
fn spoil(tag: u8) -> u8
    ensures { result ≡ spoiled tag }
{
    if tag == TAG { 0 } else { tag }
}

// Puts the steps of a card that is spoiled first. Answers how many there are.
fn put_rewriting(room: &mut [u32], old: &[u8], new: &[u8]) -> usize
    requires { (length room.old ≡ 257) × (length old.now ≡ 256) × (length new.now ≡ 256) }
    ensures { Put room.old 0 (rewritten old.now new.now) room.new result }
{
    let spoilt = spoil(old[30]);
    let front = put_change(room, 0, 30, old[30], spoilt);
    let middle = put_changes(room, front, 0, &old[0..30], &new[0..30]);
    let end = put_changes(room, middle, 31, &old[31..], &new[31..]);
    put_change(room, end, 30, spoilt, new[30])
}

// Puts our plan at the head of the room. Answers how many steps it has.
pub(crate) fn put_plan(room: &mut [u32], old: &[u8], new: &[u8]) -> usize
    requires { (length room.old ≡ 257) × (length old.now ≡ 256) × (length new.now ≡ 256) }
    ensures { Put room.old 0 (our_plan old.now new.now) room.new result }
{
    if count_changes(old, new) < 2 {
        return put_changes(room, 0, 0, old, new);
    }
    put_rewriting(room, old, new)
}
