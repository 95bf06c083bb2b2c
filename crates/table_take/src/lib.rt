// A table from its text, by definition: the edition, or the first line that is wrong and what is wrong with it; and that a table comes back from its text.
// No function stands here: `take_lines` takes a text, with the crates `take_..` under it, and promises what is said.
// A text that is wrong anywhere gives no edition at all; lines that are blank or start with # are counted and skipped.
#![tactic(auto)]

use edition::{Edition, Row};

// A kind of bytes.
#[derive(Clone, Copy)]
pub enum Kind {
    // A blank, a tab or a carriage return.
    Blanks,
    // Any other byte.
    Signs,
    // Any byte but the end of a line.
    Line,
}

// Before the first digit there is no number.
pub const NOTHING: u16 = 258;

// What is listed so far: what is wrong, the set, where an open range starts or 32, and the number that is being written.
#[derive(Clone, Copy)]
pub struct Listed {
    pub wrong: u8,
    pub set: u32,
    pub from: u16,
    pub number: u16,
}

// What the words of a line have said so far: what is wrong, how many words there were, and what they told.
#[derive(Clone, Copy)]
pub struct Fields {
    pub wrong: u8,
    pub field: u8,
    pub number: u8,
    pub required: bool,
    pub rule: u8,
    pub lengths: u32,
}

// What the lines have said so far.
#[derive(Clone, Copy)]
pub struct Taking {
    pub wrong: u8,
    pub line: usize,
    pub due: usize,
    pub number: u8,
    pub rows: [Row; 17],
}

// What is wrong with a text, where, by the line counted from 1, and which line of the table was due there: 0 that of the number, k + 1 that
// of row k.
#[derive(Clone, Copy)]
pub struct Mistake {
    pub wrong: u8,
    pub line: usize,
    pub due: usize,
}

// What a text gives: the edition that is written, or what is wrong.
pub type Taken = Result<Edition, Mistake>;
