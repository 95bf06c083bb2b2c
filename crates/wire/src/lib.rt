// Places and refusals as bytes: places of 32, an answer of one number, alone or with the value of a call.
// Any refusal and any table of places is taken as it stands.
// A place past 255 and a value past 24 bits are told by their last bits; a room of another size is left as it is.
#![tactic(auto)]

mod answers;
mod table;

pub use answers::{pack, pack_value};
pub use table::write_places;
