// The printed front of a card: four lines of 28 characters, in both layouts, from the record.
// Any record and room may be lent. Which layout is wanted, and the printer's letters, are the caller's.
// What writing under terminal would refuse is told before the room's size; the lines fill the room with no line ends.
#![tactic(auto)]

ghost use Rattle.std.specs.Prelude.{◌≡◌, length};
ghost use Rattle.card.specs.Content.{content_of};
ghost use Rattle.front.specs.Lines.{lines_of, end_to_end};
ghost use Rattle.front.specs.Placing.{Fits};
ghost use Rattle.front.specs.Refusing.{print_refusal, room_printed};

use card::{Record, Refusal};

// Fills a room of 112 bytes.
fn put_lines(room: &mut [u8], content: Record, fund: bool)
    requires { Fits (content_of content) × (length room.old ≡ 112) }
    ensures { room.new ≡ end_to_end (lines_of fund (content_of content)) }
{
    if fund {
        front_names::put_names(room, 0, content);
        let name = content.objects[0];
        front_fields::put_field(room, 56, 28, name);
        front_numbers::put_numbers(room, 84, content);
    } else {
        ground_room::fill(room, 0, 28, b' ');
        front_names::put_names(room, 28, content);
        front_numbers::put_numbers(room, 84, content);
    }
}

// Writes the four lines of a record's front into a room of 112 bytes, with the fund name or without.
pub fn print(content: Record, fund: bool, room: &mut [u8]) -> Refusal
    ensures value { result ≡ print_refusal fund (content_of content) (length room.old) }
    ensures room_after { room.new ≡ room_printed fund (content_of content) room.old }
{
    let refusal = front_checks::refuse(content, fund, room.len());
    if refusal.number != 0 {
        return refusal;
    }
    put_lines(room, content, fund);
    refusal
}
