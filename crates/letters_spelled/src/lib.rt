// From the code of DIN 66003 to UTF-8.
// Any bytes and any room may be lent; which of the letters a card may have is the value rules' to say.
// It goes as far as there are letters, and room for them: where fewer bytes were taken than lent, the next has no letter, or no room.
#![tactic(auto)]

ghost use Rattle.std.specs.Prelude.{◌≡◌, length};
ghost use Rattle.std.proofs.lemmas.List.Edits.{sets};
ghost use Rattle.ground.specs.Rooms.{room_with, behind_put};
ghost use Rattle.letters.specs.Letters.{letter, utf8};
ghost use Rattle.letters.specs.Turning.{spelled, spelled_answer};

use letters::Turned;

// Puts the letter of a byte that has one.
fn put_letter(room: &mut [u8], at: usize, b: u8) -> usize
    ensures value { result ≡ behind_put room.old at (letter b) }
    ensures room_after { room.new ≡ room_with room.old at (letter b) }
{
    let second = letter_bytes::second_of(b);
    if second == 0 {
        return ground_room::put_byte(room, at, b);
    }
    ground_room::put(room, at, &[letter_bytes::first_of(b), second])
}

// Puts the letters of some bytes at the start of the room, up to the first that has none or that no room is left for.
pub fn to_utf8(bytes: &[u8], room: &mut [u8]) -> Turned
    ensures value { result ≡ spelled_answer room.old bytes.now }
    ensures room_after { room.new ≡ sets room.old 0 (utf8 (spelled (length room.old) bytes.now)) }
{
    let mut made = 0;
    for (taken, b) in bytes.iter().enumerate() {
        if !letter_bytes::has_letter(*b) {
            return Turned { taken, made };
        }
        let end = put_letter(room, made, *b);
        if end == made {
            return Turned { taken, made };
        }
        made = end;
    }
    Turned {
        taken: bytes.len(),
        made,
    }
}
