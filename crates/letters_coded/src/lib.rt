// From UTF-8 to the code of DIN 66003.
// Any text and any room may be lent; which of the letters a card may have is the value rules' to say.
// It goes as far as there are letters, and room for them: where fewer bytes were taken than lent, the next letter is none of the code, or has no room.
#![tactic(auto)]

ghost use Rattle.std.specs.Prelude.{◌≡◌, length, take};
ghost use Rattle.std.proofs.lemmas.List.Edits.{sets};
ghost use Rattle.letters.specs.Turning.{is_first, code, coded_answer};

use letters::Turned;

// Whether a byte of a text begins a letter of two.
fn is_first(x: u8) -> bool
    ensures { result ≡ is_first x }
{
    (x == 0xC2) | (x == 0xC3)
}

// Puts the bytes of a text's letters at the start of the room, up to the first letter that the code lacks or that no room is left for.
pub fn from_utf8(text: &[u8], room: &mut [u8]) -> Turned
    ensures value { result ≡ coded_answer room.old text.now }
    ensures room_after { room.new ≡ sets room.old 0 (take (length room.old) (code text.now)) }
{
    let mut taken = 0;
    let mut made = 0;
    let mut begun = 0;
    for (at, x) in text.iter().enumerate() {
        let byte = letter_codes::byte_for(begun, *x);
        if made >= room.len() {
            return Turned { taken, made };
        }
        if byte != 0 {
            room[made] = byte;
            made += 1;
            taken = at + 1;
            begun = 0;
        } else if (begun == 0) & is_first(*x) {
            begun = *x;
        } else {
            return Turned { taken, made };
        }
    }
    Turned { taken, made }
}
