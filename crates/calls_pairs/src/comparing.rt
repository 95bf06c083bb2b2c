// Two cards side by side.
ghost use Rattle.std.specs.Prelude.{◌≡◌, [], length};
ghost use Rattle.card.specs.Refusals.{refuse};
ghost use Rattle.differences.specs.Answers.{told};
ghost use Rattle.calls_pairs.specs.Comparing.{table_compared, kvk_differences, kvk_differences_room};

use card::Refusal;
use differences::Differences;

fn refused_list(number: u8) -> Differences
    ensures { result ≡ told (refuse number 0 0) [] }
{
    Differences {
        refusal: Refusal::new(number, 0, 0),
        count: 0,
        entries: [0; 30],
    }
}

fn compared(table: &[u8], first: &[u8], second: &[u8]) -> Differences
    ensures { result ≡ table_compared table.now first.now second.now }
{
    if first.len() != 256 {
        return refused_list(1);
    }
    if table.len() != 103 {
        return refused_list(2);
    }
    differences::compare(wire_tables::edition_of(table), first, second)
}

// Lists the differences of two images into a room of thirty words; the value of the answer is how many there are.
pub fn differences(table: &[u8], first: &[u8], second: &[u8], room: &mut [u32]) -> u64
    ensures value { result ≡ kvk_differences table.now first.now second.now room.old }
    ensures room_after { room.new ≡ kvk_differences_room table.now first.now second.now room.old }
{
    if room.len() != 30 {
        return wire::pack(Refusal::new(20, 0, 0));
    }
    let found = compared(table, first, second);
    room.copy_from_slice(&found.entries);
    wire::pack_value(found.refusal, found.count)
}
