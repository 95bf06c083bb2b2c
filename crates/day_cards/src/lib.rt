// A card of a day: whether an image is read under terminal, and its entry in the index.
// Any image and position may be lent; where the entry goes is the caller's.
// An image that is refused has an entry too, that of no number: whether it is accepted has to be looked at.
#![tactic(auto)]

ghost use Rattle.std.specs.Prelude.{◌≡◌, ◌<◌, get_or};
ghost use Rattle.card.specs.Content.{value_of};
ghost use Rattle.day.specs.Cards.{is_card, number_of, padded, entry};

use card::Object;
use edition::Edition;

// Whether an image is accepted, and its entry.
// It stays a flag with an entry, and is no Option: what card_at ensures tells the entry of a refused image too.
#[derive(Clone, Copy)]
pub struct Card {
    pub accepted: bool,
    pub entry: [u8; 14],
}

// The byte at `i` of a number that is padded to 12.
fn padded_at(number: Object, i: usize) -> u8
    requires { i < 12 }
    ensures { result ≡ get_or (padded (value_of number)) i 0 }
{
    if i < number.length as usize {
        return number.bytes[i];
    }
    b' '
}

// The entry of a number at a position.
pub fn entry_of(number: Object, position: u16) -> [u8; 14]
    ensures { result ≡ entry (value_of number) position }
{
    let mut bytes = [0u8; 14];
    for i in 0..12 {
        bytes[i] = padded_at(number, i);
    }
    bytes[12] = (position / 256) as u8;
    bytes[13] = (position % 256) as u8;
    bytes
}

// Reads an image under terminal.
pub fn card_at(image: &[u8], position: u16) -> Card
    ensures { result ≡ record { accepted = is_card image.now; entry = entry (number_of image.now) position } }
{
    let reading = reader::read(Edition::terminal(), image);
    let refusal = reading.refusal;
    let content = reading.content;
    let number = content.objects[3];
    Card {
        accepted: refusal.number == 0,
        entry: entry_of(number, position),
    }
}
