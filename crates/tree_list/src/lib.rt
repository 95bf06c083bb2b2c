// The objects of a foreign card: tag, depth, the tag's address and the value's length of each, outer before inner.
// Any bytes and any room may be lent. What the tags and values mean is the caller's.
// The bytes are read twice, before anything is put and then to put it, so that a refusal leaves the room as it is.
#![tactic(auto)]

ghost use Rattle.std.specs.Prelude.{◌≡◌, [], ◌∷◌, ◌+◌, ◌-◌, ◌*◌, ◌<◌, ◌≤◌, length};
ghost use Rattle.ground.specs.Rooms.{room_with};
ghost use Rattle.tree.specs.Listing.{listing, object, Entry};
ghost use Rattle.tree.specs.Answers.{words, Done, scanned, tree_answer, tree_room};

use tree::{Head, Refusal, Scan};

// Puts the words of one object from k on, where they fit.
fn put_entry(room: &mut [u16], k: usize, tag: u8, depth: usize, at: usize, length: usize)
    requires { (depth ≤ 7) × ((at ≤ 4096) × (length ≤ 4096)) }
    ensures { room.new ≡ room_with room.old k (words (Entry.entry tag depth at length ∷ [])) }
{
    tree_entries::put_words(room, k, tag, depth as u16, at as u16, length as u16);
}

// The object that the bytes begin with, and all that it holds.
#[cycle(read_list_read_object)]
fn read_object(
    bytes: &[u8],
    at: usize,
    left: usize,
    room: &mut [u16],
    k: usize,
) -> Result<Scan, Refusal>
    requires { (0 < length bytes.now) × ((at + length bytes.now ≤ 4096) × ((left ≤ 6) × (k ≤ 4 * at))) }
    ensures { Done k (object (7 - left) at bytes.now) result room.old room.new }
{
    let Head { tag, start, length } = tree_heads::head_of(bytes, at, left)?;
    put_entry(room, k, tag, 7 - left, at, length);
    let stop = start + length;
    let behind = k + 4;
    if !tree_tags::is_list(tag) {
        return Ok(Scan {
            words: behind,
            used: stop,
        });
    }
    let inner = read_list(&bytes[start..stop], at + start, left - 1, room, behind)?;
    Ok(Scan {
        words: inner.words,
        used: stop,
    })
}

// The list reader and the object reader call each other: the bytes that remain fall, and so do the levels that are left.
// The objects of the bytes, one after the other.
#[cycle(read_list_read_object)]
fn read_list(
    bytes: &[u8],
    at: usize,
    left: usize,
    room: &mut [u16],
    k: usize,
) -> Result<Scan, Refusal>
    requires { (at + length bytes.now ≤ 4096) × ((left ≤ 6) × (k ≤ 4 * at)) }
    ensures { Done k (listing (7 - left) at bytes.now) result room.old room.new }
{
    let mut p = 0;
    let mut n = k;
    while p < bytes.len() {
        let one = read_object(&bytes[p..], at + p, left, room, n)?;
        n = one.words;
        p = p + one.used;
    }
    Ok(Scan { words: n, used: p })
}

// Whether the bytes are objects, and how many words their listing takes.
fn survey(bytes: &[u8]) -> Result<Scan, Refusal>
    requires { length bytes.now ≤ 4096 }
    ensures { result ≡ scanned 0 (listing 1 0 bytes.now) }
{
    let mut none = [0u16; 1];
    read_list(bytes, 0, 6, &mut none, 0)
}

// Lists all objects into the room, four words each.
pub fn list_tree(bytes: &[u8], room: &mut [u16]) -> Result<u16, Refusal>
    ensures value { result ≡ tree_answer bytes.now room.old }
    ensures room_after { room.new ≡ tree_room bytes.now room.old }
{
    if 4096 < bytes.len() {
        return Err(Refusal::new(54, 0));
    }
    let first = survey(bytes)?;
    if room.len() < first.words {
        return Err(Refusal::new(55, 0));
    }
    read_list(bytes, 0, 6, room, 0)?;
    Ok((first.words / 4) as u16)
}
