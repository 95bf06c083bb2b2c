// A card added at the end of a day file.
// Any bytes and any room may be lent; that the room is kept is the caller's.
// The new index is the file's own with one entry more: the images that are there are read once, in the check.
#![tactic(auto)]

ghost use Rattle.std.specs.Prelude.{◌≡◌, ◌++◌, ◌∷◌, [], ◌+◌, ◌*◌, ◌≤◌, ◌<◌, length, take, drop};
ghost use Rattle.std.proofs.lemmas.List.Edits.{sets};
ghost use Rattle.ground.specs.Pieces.{pieces};
ghost use Rattle.day_index.specs.Order.{flat, insert};
ghost use Rattle.day.specs.Files.{trailer, size_of};
ghost use Rattle.day.specs.Calls.{add_answer, add_room};

use card::Refusal;
use day::Answer;

// Fills `index` with the index of a file of so many images, and one entry more.
fn add_entry(index: &mut [u8], file: &[u8], count: usize, entry: [u8; 14])
    requires { (2800 ≤ length index.old) × (count < 200) × (count * 270 ≤ length file.now) }
    ensures { take ((count + 1) * 14) index.new ≡ flat (insert entry (pieces 14 count (take (count * 14) (drop (count * 256) file.now)))) }
{
    let start = count * 256;
    let end = count * 270;
    ground_room::put(index, 0, &file[start..end]);
    day_index::put(index, count, entry);
}

// Writes the images of a file and a card, with the index of both and the trailer.
fn write_added(room: &mut [u8], file: &[u8], card: &[u8], count: usize, index: &[u8])
    requires { (count < 200) × (count * 256 ≤ length file.now) × (length card.now ≡ 256) × (length index.now ≡ (count + 1) * 14) × (size_of (count + 1) ≤ length room.old) }
    ensures { room.new ≡ sets room.old 0 ((take (count * 256) file.now ++ card.now) ++ (index.now ++ trailer (count + 1) index.now)) }
{
    let start = count * 256;
    ground_room::put(room, 0, &file[..start]);
    ground_room::put(room, start, card);
    day_trailer::close(room, count + 1, index);
}

// The same, with the index made.
fn put_added(room: &mut [u8], file: &[u8], card: &[u8], count: usize, entry: [u8; 14])
    requires { (count < 200) × (count * 270 ≤ length file.now) × (length card.now ≡ 256) × (size_of (count + 1) ≤ length room.old) }
    ensures { room.new ≡ sets room.old 0 ((take (count * 256) file.now ++ card.now) ++ (flat (insert entry (pieces 14 count (take (count * 14) (drop (count * 256) file.now)))) ++ trailer (count + 1) (flat (insert entry (pieces 14 count (take (count * 14) (drop (count * 256) file.now))))))) }
{
    let mut index = [0u8; day::MOST_INDEX];
    add_entry(&mut index, file, count, entry);
    let size = (count + 1) * 14;
    write_added(room, file, card, count, &index[..size]);
}

// Adds a card at the end of a file: the new file stands at the start of the room, and its length is the answer.
pub fn add(file: &[u8], card: &[u8], room: &mut [u8]) -> Answer
    ensures value { result ≡ add_answer file.now card.now room.old }
    ensures room_after { room.new ≡ add_room file.now card.now room.old }
{
    let count = day_told::count_in(file);
    let more = day_limits::refuse_more(count, room.len());
    let refusal = day_told::or_else(day_check::check(file), more);
    if refusal.number != 0 {
        return Err(refusal);
    }
    let new = day_cards::card_at(card, count as u16);
    if !new.accepted {
        return Err(Refusal::new(41, count, 0));
    }
    let entry = new.entry;
    put_added(room, file, card, count, entry);
    Ok((count + 1) * 270 + 8)
}
