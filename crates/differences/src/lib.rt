// Two cards side by side: the exact differences of two images under one edition, tag by tag and then by address.
// Any edition and images may be lent; which card is the first, and what is done about a difference, is the caller's.
// The checksum is not compared, since it follows from the rest; at L = 93 the last byte is listed once, by address 255.
#![tactic(auto)]

mod entries;
mod spots;

ghost use Rattle.std.specs.Prelude.{◌≡◌, []};
ghost use Rattle.differences.specs.Answers.{told, compared};

use card::Refusal;
use edition::Edition;

// The list: at most sixteen objects and fourteen addresses, and 0 behind them. An entry is its kind times 65536, its tag times
// 256 and its place; kinds 1 absent in the first, 2 absent in the second, 3 lengths, 4 first differing index, 5 byte at an address.
#[derive(Clone, Copy)]
pub struct Differences {
    pub refusal: Refusal,
    pub count: usize,
    pub entries: [u32; 30],
}

fn refused(refusal: Refusal) -> Differences
    ensures { result ≡ told refusal [] }
{
    Differences {
        refusal,
        count: 0,
        entries: [0; 30],
    }
}

// Lists the differences of two images, or says why one is refused, the first before the second.
pub fn compare(edition: Edition, first: &[u8], second: &[u8]) -> Differences
    ensures { result ≡ compared edition first.now second.now }
{
    let one = reader_places::places(edition, first);
    let refusal = one.refusal;
    if refusal.number != 0 {
        return refused(refusal);
    }
    let two = reader_places::places(edition, second);
    let other = two.refusal;
    if other.number != 0 {
        return refused(other);
    }
    let starts = one.starts;
    let lengths = one.lengths;
    let others = two.starts;
    let sizes = two.lengths;
    let mut entries = [0u32; 30];
    let objects = spots::put_objects(&mut entries, first, starts, lengths, second, others, sizes);
    let count = spots::put_bytes(&mut entries, objects, first, second);
    Differences {
        refusal: Refusal::none(),
        count,
        entries,
    }
}
