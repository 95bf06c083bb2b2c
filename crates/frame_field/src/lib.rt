// The template's length field: where it is wrong, and where it puts the template.
// Any bytes may be lent; what is refused, and in which order, is the caller's.
// Start and end are told of a wrong field too: they are those that its bytes say.
#![tactic(auto)]

ghost use Rattle.std.specs.Prelude.{◌≡◌};
ghost use Rattle.card.specs.Frame.{field_wrong, field_of};
ghost use Rattle.frame.specs.Checks.{span_of};

use card::LengthField;
use frame::Span;

// Where a length field is wrong: 70 to 127 stand in one byte, 128 to 212 behind '81'.
fn wrong_at(field: LengthField) -> usize
    ensures { result ≡ field_wrong field }
{
    match field {
        LengthField::One(n) => if n >= 70 { 0 } else { 31 },
        LengthField::Two(n) => if (n >= 128) & (n <= 212) { 0 } else { 32 },
        LengthField::Other(_) => 31,
        LengthField::Cut => 31,
    }
}

fn span_of(field: LengthField) -> Span
    ensures { result ≡ span_of field }
{
    let wrong = wrong_at(field);
    match field {
        LengthField::One(n) => Span {
            wrong,
            start: 32,
            end: 32 + n as usize,
        },
        LengthField::Two(n) => Span {
            wrong,
            start: 33,
            end: 33 + n as usize,
        },
        LengthField::Other(n) => Span {
            wrong,
            start: 32,
            end: 32 + n as usize,
        },
        LengthField::Cut => Span {
            wrong,
            start: 31,
            end: 31,
        },
    }
}

// The template's extent, by its length field.
pub fn read_span(image: &[u8]) -> Span
    ensures { result ≡ span_of (field_of image.now) }
{
    if image.len() < 31 {
        return span_of(LengthField::Cut);
    }
    span_of(card_fields::read_length(&image[31..]))
}
