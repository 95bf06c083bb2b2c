// What stands around the objects of a card, in definitions: the head and the template's length before them, the filler behind.
// No code: the crates above read it out of an image. The checksum, and the order of what is refused behind the objects, are the reader's.
// The refusal of the edition is handed in: it is told between 1 and 3.
#![tactic(auto)]

use card::Refusal;

// Where the length field is wrong, 0 where it is right; where the objects start; and the address behind the template.
#[derive(Clone, Copy)]
pub struct Span {
    pub wrong: usize,
    pub start: usize,
    pub end: usize,
}

// What is refused before the objects; else where they start, and the address behind the template.
#[derive(Clone, Copy)]
pub struct Front {
    pub refusal: Refusal,
    pub start: usize,
    pub end: usize,
}
