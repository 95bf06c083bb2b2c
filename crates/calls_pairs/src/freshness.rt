// The fresher of two cards, of lent bytes.
ghost use Rattle.std.specs.Prelude.{◌≡◌};
ghost use Rattle.card.specs.Refusals.{refuse};
ghost use Rattle.fresher.specs.Comparing.{unweighed};
ghost use Rattle.wire.specs.Answers.{packed};
ghost use Rattle.calls_pairs.specs.Fresher.{table_fresher, kvk_fresher, kvk_fresher_room};

use card::Refusal;
use fresher::Fresher;

fn compare_none(number: u8) -> Fresher
    ensures { result ≡ unweighed (refuse number 0 0) }
{
    Fresher {
        refusal: Refusal::new(number, 0, 0),
        second: false,
        months: 0,
        start: 0,
        length: 0,
    }
}

fn compared(table: &[u8], first: &[u8], second: &[u8]) -> Fresher
    ensures { result ≡ table_fresher table.now first.now second.now }
{
    if table.len() != 103 {
        if first.len() != 256 {
            return compare_none(1);
        }
        return compare_none(2);
    }
    fresher_cards::compare(wire_tables::edition_of(table), first, second)
}

// Fills a room of 8 bytes: the card, 1 or 2; start and length of its family name; 0; the months, signed.
pub fn fresher(table: &[u8], first: &[u8], second: &[u8], room: &mut [u8]) -> u64
    ensures value { result ≡ packed (kvk_fresher table.now first.now second.now room.old) }
    ensures room_after { room.new ≡ kvk_fresher_room table.now first.now second.now room.old }
{
    if room.len() != 8 {
        return wire::pack(Refusal::new(20, 0, 0));
    }
    let fresher = compared(table, first, second);
    fresher_bytes::write_fresher(fresher, room);
    wire::pack(fresher.refusal)
}
