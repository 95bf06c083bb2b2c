// The name of an object, or of a byte of its own, as a line of a card's text has it; and any line of a list, by its number.
// Any room, list and key may be lent; a room that the name does not fit is left as it is.
// A key past the last name has none: nothing is put, and the place that was lent is the answer.
#![tactic(auto)]

ghost use Rattle.std.specs.Prelude.{◌≡◌, get_or, []};
ghost use Rattle.ground.specs.Rooms.{room_with, behind_put};
ghost use Rattle.card_lines.specs.Lines.{lines};
ghost use Rattle.card_lines.specs.Keys.{name_of};

// Puts the line of a list with this number, counted from 0, from `place` on and answers the place behind it; past the last line nothing is put.
pub fn put_line(room: &mut [u8], place: usize, list: &[u8], number: usize) -> usize
    ensures value { result ≡ behind_put room.old place (get_or (lines list.now) number []) }
    ensures room_after { room.new ≡ room_with room.old place (get_or (lines list.now) number []) }
{
    let mut at = 0;
    let mut i = 0;
    while at < list.len() {
        let end = line_ends::find(list, at, b'\n');
        if i == number {
            return ground_room::put(room, place, &list[at..end]);
        }
        at = end + 1;
        i += 1;
    }
    place
}

// Puts the name of a key from `at` on and answers the place behind it; a key past the last name has none, and nothing is put.
pub fn put_name(room: &mut [u8], at: usize, key: usize) -> usize
    ensures value { result ≡ behind_put room.old at (name_of key) }
    ensures room_after { room.new ≡ room_with room.old at (name_of key) }
{
    put_line(
        room,
        at,
        b"fund name\nfund number\noffice code\ninsured number\nstatus\nstatus addition\ntitle\ngiven name\nname prefix\nfamily name\nbirth date\nstreet\ncountry\npostal code\ntown\nvalidity\naddress 0\nfree bytes\nlast byte\nchecksum",
        key,
    )
}
