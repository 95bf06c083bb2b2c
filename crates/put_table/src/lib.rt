// The text of a table, for people to edit: a line with the edition's number, then one row a line in card order.
// Any edition and any room may be lent; where the text goes is the caller's. `take_lines` reads it back.
// Every table has a text, one that is not well formed too; a room that the longest text might not fit is left as it is, whatever this one needs.
#![tactic(auto)]

mod lengths;
mod rows;
mod vocabulary;

ghost use Rattle.std.specs.Prelude.{◌≡◌};
ghost use Rattle.table_text.specs.Texts.{text_size, text_room, Within};

use edition::Edition;

// The longest text: a first line of 21 bytes at most, and seventeen of 183.
const LONGEST: usize = 21 + 17 * 183;

// Writes the text of an edition at the start of the room and answers its length. A room that may be too small is left
// as it is, and the answer is 0.
pub fn put(edition: Edition, room: &mut [u8]) -> usize
    ensures value { result ≡ text_size edition room.old }
    ensures room_after { room.new ≡ text_room edition room.old }
    ensures within { Within result room.new }
{
    if room.len() < LONGEST {
        return 0;
    }
    let start = rows::put_head(room, edition.number);
    rows::put_rows(room, start, edition)
}
