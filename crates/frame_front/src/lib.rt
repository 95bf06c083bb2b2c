// What is refused before the objects, in the document's order; else where they start and end.
// Any bytes may be lent. The refusal of the edition is the caller's: it is handed in.
// It is told between 1 and 3, so a card of another size is refused with 1 under any edition.
#![tactic(auto)]

ghost use Rattle.std.specs.Prelude.{◌≡◌, length};
ghost use Rattle.card.specs.Frame.{field_wrong, field_of};
ghost use Rattle.card.specs.Reading.{front_refusal};
ghost use Rattle.frame.specs.Checks.{open_refusal, front_of};

use card::Refusal;
use frame::Front;

// 3, then 4, where the length field is wrong at `wrong`, or 0.
fn refuse_front(image: &[u8], wrong: usize) -> Refusal
    requires { (length image.now ≡ 256) × (wrong ≡ field_wrong (field_of image.now)) }
    ensures { result ≡ front_refusal image.now }
{
    if !card_ends::allows_first(image[0]) {
        return Refusal::new(3, 0, 0);
    }
    let right = frame_head::head_end(image);
    if right != 30 {
        return Refusal::new(3, right, 0);
    }
    if image[30] != 0x60 {
        return Refusal::new(4, 30, 0);
    }
    if wrong != 0 {
        return Refusal::new(4, wrong, 0);
    }
    Refusal::none()
}

// 1, the refusal of the edition, 3 and 4.
fn refuse_open(image: &[u8], edition: Refusal, wrong: usize) -> Refusal
    requires { wrong ≡ field_wrong (field_of image.now) }
    ensures { result ≡ open_refusal edition image.now }
{
    if image.len() != 256 {
        return Refusal::new(1, 0, 0);
    }
    if edition.number != 0 {
        return edition;
    }
    refuse_front(image, wrong)
}

// 1, the refusal of the edition, 3 and 4.
pub fn check_front(image: &[u8], edition: Refusal) -> Front
    ensures { result ≡ front_of edition image.now }
{
    let span = frame_field::read_span(image);
    let refusal = refuse_open(image, edition, span.wrong);
    if refusal.number != 0 {
        return Front {
            refusal,
            start: 0,
            end: 0,
        };
    }
    Front {
        refusal: Refusal::none(),
        start: span.start,
        end: span.end,
    }
}
