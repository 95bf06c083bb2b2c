// The call that fills a room with the table of a shipped edition: 1 terminal, 2 issue.
// Any room may be lent: one that has not 103 bytes is refused with 20, whatever is asked for.
// A refusal leaves the room as it is.
#![tactic(auto)]

ghost use Rattle.std.specs.Prelude.{◌≡◌, cond, eqb};
ghost use Rattle.edition.specs.Tables.{terminal, issue};
ghost use Rattle.wire.specs.Answers.{packed};
ghost use Rattle.calls_cards.specs.Calls.{kvk_edition, kvk_edition_room};

use card::Refusal;
use edition::Edition;

fn shipped(which: u64) -> Edition
    ensures { result ≡ cond (eqb which 1) terminal issue }
{
    if which == 1 {
        Edition::terminal()
    } else {
        Edition::issue()
    }
}

// Fills a room of 103 bytes with the table of a shipped edition: 1 terminal, 2 issue.
pub fn edition(which: u64, room: &mut [u8]) -> u64
    ensures value { result ≡ packed (kvk_edition which room.old) }
    ensures room_after { room.new ≡ kvk_edition_room which room.old }
{
    if room.len() != 103 {
        return wire::pack(Refusal::new(20, 0, 0));
    }
    let known = (which == 1) | (which == 2);
    if !known {
        return wire::pack(Refusal::new(2, 0, 0));
    }
    wire_tables::write_table(shipped(which), room);
    0
}
