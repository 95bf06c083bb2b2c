// Theorems and definitions only: which of two cards is valid later, by how many months, where its family name stands, and the eight bytes of it.
// The code stands in the crates `fresher_..` above it; `fresher_cards` has what callers use.
// The months of a card are those of its bytes, whatever they are; only the reader says that they are a date.
#![tactic(auto)]

use card::Refusal;

// The refusal, or else which card is valid later, the months from the first's validity to the second's, and where that
// card's family name stands in its image.
#[derive(Clone, Copy)]
pub struct Fresher {
    pub refusal: Refusal,
    pub second: bool,
    pub months: i32,
    pub start: u8,
    pub length: u8,
}

// What its places tell of one card: its validity in months, if it has one, and where the family name stands.
#[derive(Clone, Copy)]
pub struct Card {
    pub refusal: Refusal,
    pub months: Option<u16>,
    pub start: u8,
    pub length: u8,
}
