// What is refused of a row's object, of a row that is missing, and of what is left behind the last.
// Any bytes, row number and place may be given; whether it is to be refused is the caller's to say.
// Only with 7 are the ends of the row's set told.
#![tactic(auto)]

ghost use Rattle.std.specs.Prelude.{◌≡◌, suc, ◌+◌, drop};
ghost use Rattle.ground.specs.Lists.{among};
ghost use Rattle.edition.specs.Rows.{tags};
ghost use Rattle.card.specs.Reading.{rest_refusal};
ghost use Rattle.objects.specs.Objects.{passed_over, with_ends};

use card::Refusal;

// Whether b is the tag of a row after k.
fn is_later(k: usize, b: u8) -> bool
    ensures { result ≡ among b (drop (suc k) tags) }
{
    if k >= 17 {
        return false;
    }
    for j in k + 1..17 {
        if b == edition_tags::tag_of(j) {
            return true;
        }
    }
    false
}

// What the required row k is refused with where a part begins with another tag than its own, or is at its end.
pub fn refuse_missing(part: &[u8], at: usize, k: usize) -> Refusal
    ensures { result ≡ passed_over k at part.now }
{
    if part.len() == 0 {
        return Refusal::new(6, at, edition_tags::tag_of(k));
    }
    if is_later(k, part[0]) {
        Refusal::new(6, at, edition_tags::tag_of(k))
    } else {
        Refusal::new(5, at, 0)
    }
}

// A refusal of the object reader, with the ends of the row's set where the number is 7.
pub fn refuse(lengths: u32, number: u8, place: usize, tag: u8) -> Refusal
    ensures { result ≡ with_ends lengths number place tag }
{
    if number == 7 {
        Refusal::of_length(place, tag, lengths)
    } else {
        Refusal::new(number, place, tag)
    }
}

// 12, where so many bytes are left at `at`.
pub fn refuse_rest(left: usize, at: usize) -> Refusal
    ensures { result ≡ rest_refusal (at + left) left }
{
    if left != 0 {
        Refusal::new(12, at, 0)
    } else {
        Refusal::none()
    }
}
