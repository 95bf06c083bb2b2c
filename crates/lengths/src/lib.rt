// The length field of an object: what it says, and the shortest form that a length has; types, definitions and laws.
// No code but the numbers of what is amiss: reading and putting a field stand in the crates above.
// A length has one field: a longer form than needed is not one.
#![tactic(auto)]

ghost use Rattle.std.specs.Prelude.{◌≡◌};
ghost use Rattle.lengths.specs.Lengths.{number_of};

// The length, and how many bytes the field takes.
#[derive(Clone, Copy, PartialEq, Eq)]
pub struct Field {
    pub length: u16,
    pub used: u8,
}

// An answer in numbers, as C is told it: a refusal's number or 0, the length, the bytes used; the last two are 0 with a refusal.
// The number stands beside the values because the promise of `lengths_read::told`, and the theorem `lengths_told_once` on it, are of these three.
#[derive(Clone, Copy)]
pub struct ToldLength {
    pub number: u8,
    pub length: u16,
    pub used: u8,
}

// What is amiss with a field.
#[derive(Clone, Copy, PartialEq, Eq)]
pub enum FieldError {
    // Another first byte.
    Other,
    // Cut short, or no byte at all.
    Cut,
    // A longer form than needed.
    Long,
}

impl FieldError {
    // The number of the refusal.
    pub fn number(self) -> u8
        ensures { result ≡ number_of self }
    {
        match self {
            FieldError::Other => 70,
            FieldError::Cut => 71,
            FieldError::Long => 72,
        }
    }
}
