// A card as text that people write: which line speaks of what, what is wrong with a text, and the record that it makes, all by definition.
// No function stands here: `text_entries`, `text_checks` and `text_records` do what is said, and promise it.
// A text with a fault makes a record all the same, and no line can set the checksum.
#![tactic(auto)]

// Why a line is wrong: no object has its name, an earlier line speaks of the same, a letter that DIN 66003 lacks, not the hex digits that are due, the
// checksum, which is computed.
#[derive(Clone, Copy)]
pub enum Wrong {
    Name = 1,
    Again = 2,
    Letter = 3,
    Digits = 4,
    Checksum = 5,
}

// A line that is wrong, counted from 1, what it speaks of, and why; `place` is the first byte within its value of a letter that DIN 66003 lacks.
#[derive(Clone, Copy)]
pub struct Fault {
    pub wrong: Wrong,
    pub line: usize,
    pub key: usize,
    pub place: usize,
}
