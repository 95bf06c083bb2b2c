// The calls on two cards: their differences, and the fresher one; on tables and images as lent bytes.
// Anything may be lent: a room of another size is refused with 20 and left, before all else.
// A table of another size is refused behind the first image's size, since reading tells it so.
#![tactic(auto)]

mod comparing;
mod freshness;

pub use comparing::differences;
pub use freshness::fresher;
