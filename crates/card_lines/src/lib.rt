// One line of a card's text by definition: what it speaks of, by its name or tag, what it says behind its colon, the names, and the numbers of what has no tag.
// No function stands here: `line_ends`, `line_keys`, `line_values` and `line_names` do what is said, and promise it.
// Blanks at a line's head, a carriage return at its end and one blank behind its colon are no part of what it says.
#![tactic(auto)]

pub const FIRST: usize = 16;

pub const FREE: usize = 17;

pub const LAST: usize = 18;

pub const CHECKSUM: usize = 19;

pub const UNKNOWN: usize = 20;

pub const SKIPPED: usize = 21;
