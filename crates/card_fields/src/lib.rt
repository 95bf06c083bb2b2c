// The length field of a template or a filler, in the two forms that a card has.
// Any bytes may be lent; the range of the length is the caller's to judge.
// A field of three bytes is another first byte, whatever it says.
#![tactic(auto)]

ghost use Rattle.std.specs.Prelude.{◌≡◌};
ghost use Rattle.card.specs.Fields.{length_at, field_told, unread};

use card::LengthField;

// The form where no length in one byte or two was read.
fn form_unread(bytes: &[u8]) -> LengthField
    ensures { result ≡ unread bytes.now }
{
    if bytes.len() < 1 {
        return LengthField::Cut;
    }
    let b = bytes[0];
    if b != 0x81 {
        return LengthField::Other(b);
    }
    if bytes.len() < 2 {
        return LengthField::Cut;
    }
    LengthField::Two(bytes[1])
}

// Of the forms of a length a card has two: a field of three bytes is another first byte.
pub fn read_length(bytes: &[u8]) -> LengthField
    ensures { field_told result ≡ field_told (length_at bytes.now) }
{
    let Ok(field) = lengths_read::read_length(bytes) else {
        return form_unread(bytes);
    };
    if field.used == 1 {
        return LengthField::One(field.length as u8);
    }
    if field.used == 2 {
        return LengthField::Two(field.length as u8);
    }
    form_unread(bytes)
}
