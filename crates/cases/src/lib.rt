// The parts of stored cases and of their answers, as `second/README.md` gives them.
// Which call a case makes is for the crates that answer its kind, `cases_cards` and the others.
// What cannot be read whole is no case: the program then writes END and stops.
// A function that reads is lent the reader, one that writes the writer; where one of these fails, the answer is its error.
#![tactic(auto)]

mod lines;
mod parts;

pub use lines::{
    write_answer, write_content, write_hex, write_number, write_other, write_room, write_start,
};
pub use parts::{
    LONGEST, fill, get, get_content, get_length, get_span, get_table, is_filled, word_of,
};
