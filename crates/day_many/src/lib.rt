// Images that are too many for a day file: each is read before they are refused for being too many.
// Any bytes may be lent; what is left behind the last whole image is not looked at.
// The first image that is refused is told, with its position, before the 43.
#![tactic(auto)]

ghost use Rattle.std.specs.Prelude.{◌≡◌, ◌*◌, ◌≤◌, length};
ghost use Rattle.card.specs.Refusals.{refuse, or_else};
ghost use Rattle.ground.specs.Pieces.{pieces};
ghost use Rattle.day.specs.Files.{cards_refusal};
ghost use Rattle.day.specs.Calls.{laid_images};

use card::Refusal;

// Whether each of the first `count` images is a card.
fn check_cards(images: &[u8], count: usize) -> Refusal
    requires { count * 256 ≤ length images.now }
    ensures { result ≡ cards_refusal 0 (pieces 256 count images.now) }
{
    for k in 0..count {
        let at = k * 256;
        let end = at + 256;
        let card = day_cards::card_at(&images[at..end], 0);
        if !card.accepted {
            return Refusal::new(41, k, 0);
        }
    }
    Refusal::none()
}

// 41 if one of the images is refused, else 43.
pub fn refuse_many(images: &[u8]) -> Refusal
    ensures { result ≡ or_else (cards_refusal 0 (laid_images images.now)) (refuse 43 0 0) }
{
    let count = images.len() / 256;
    day_told::or_else(check_cards(images, count), Refusal::new(43, 0, 0))
}
