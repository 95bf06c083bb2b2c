// The length field of an object, read: its length and the bytes it takes, or what is amiss.
// Any bytes may be lent. Which forms and lengths it takes, and what lies behind the field, is the caller's.
// A longer form than needed is refused.
#![tactic(auto)]

ghost use Rattle.std.specs.Prelude.{◌≡◌};
ghost use Rattle.lengths.specs.Lengths.{behind81, behind82, length_read, length_told};

use lengths::{Field, FieldError, ToldLength};

// The answer in numbers.
pub fn told(answer: Result<Field, FieldError>) -> ToldLength
    ensures { result ≡ length_told answer }
{
    match answer {
        Ok(field) => ToldLength {
            number: 0,
            length: field.length,
            used: field.used,
        },
        Err(e) => ToldLength {
            number: e.number(),
            length: 0,
            used: 0,
        },
    }
}

fn read_behind81(rest: &[u8]) -> Result<Field, FieldError>
    ensures { result ≡ behind81 rest.now }
{
    let low = *rest.first().ok_or(FieldError::Cut)?;
    if low <= 127 {
        return Err(FieldError::Long);
    }
    Ok(Field {
        length: low as u16,
        used: 2,
    })
}

fn read_behind82(rest: &[u8]) -> Result<Field, FieldError>
    ensures { result ≡ behind82 rest.now }
{
    if rest.len() < 2 {
        return Err(FieldError::Cut);
    }
    let high = rest[0];
    if high == 0 {
        return Err(FieldError::Long);
    }
    let low = rest[1];
    Ok(Field {
        length: high as u16 * 256 + low as u16,
        used: 3,
    })
}

// The length field at the head of some bytes.
#[tactic(auto, unfolding(lengths::specs::Lengths::length_read))]
pub fn read_length(bytes: &[u8]) -> Result<Field, FieldError>
    ensures read { result ≡ length_read bytes.now }
    ensures told { length_told result ≡ length_told (length_read bytes.now) }
{
    let (first, rest) = bytes.split_first().ok_or(FieldError::Cut)?;
    if *first <= 127 {
        return Ok(Field {
            length: *first as u16,
            used: 1,
        });
    }
    if *first == 0x81 {
        return read_behind81(rest);
    }
    if *first == 0x82 {
        return read_behind82(rest);
    }
    Err(FieldError::Other)
}
