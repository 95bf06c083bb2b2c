// The set of lengths that a word lists: numbers and ranges behind commas, or none.
// Any word may be lent. Whether a row may permit the lengths, others ask.
// Lengths from 0 to 31 are taken, in any order and more than once.
#![tactic(auto)]

ghost use Rattle.std.specs.Prelude.{◌≡◌, ◌+◌, ◌-◌, ◌<◌};
ghost use Rattle.table_take.specs.LengthSets.{with_range, first_of, item_fault, range_fault, closed, begun, with_sign, lengths_of};

use table_take::{Listed, NOTHING};

const NO_RANGE: u16 = 32;

// The set with the lengths from first to last.
fn with_range(set: u32, first: u16, last: u16) -> u32
    requires { last < 32 }
    ensures { result ≡ with_range set first (last + 1 - first) }
{
    let mut all = set;
    for n in first..last + 1 {
        all |= 1 << n;
    }
    all
}

fn first_of(from: u16, number: u16) -> u16
    ensures { result ≡ first_of from number }
{
    if from == NO_RANGE { number } else { from }
}

// What is wrong where an item of the list ends: no number, one above 31, or a range that ends before it starts.
fn item_fault(from: u16, number: u16) -> u8
    ensures { result ≡ item_fault from number }
{
    if number > 256 {
        return 7;
    }
    if number > 31 {
        return 8;
    }
    if first_of(from, number) > number {
        return 9;
    }
    0
}

// What is wrong where a range starts.
fn range_fault(from: u16, number: u16) -> u8
    ensures { result ≡ range_fault from number }
{
    if from != NO_RANGE {
        return 7;
    }
    if number > 256 {
        return 7;
    }
    if number > 31 {
        return 8;
    }
    0
}

// An item of the list ends.
fn closed(item: Listed) -> Listed
    ensures { result ≡ closed item }
{
    if item.wrong != 0 {
        return item;
    }
    let fault = item_fault(item.from, item.number);
    if fault != 0 {
        return Listed {
            wrong: fault,
            from: NO_RANGE,
            number: NOTHING,
            ..item
        };
    }
    Listed {
        wrong: 0,
        set: with_range(item.set, first_of(item.from, item.number), item.number),
        from: NO_RANGE,
        number: NOTHING,
    }
}

// A range starts.
fn begun(item: Listed) -> Listed
    ensures { result ≡ begun item }
{
    Listed {
        wrong: range_fault(item.from, item.number),
        from: item.number,
        number: NOTHING,
        ..item
    }
}

fn with_sign(item: Listed, sign: u8) -> Listed
    ensures { result ≡ with_sign item sign }
{
    if item.wrong != 0 {
        return item;
    }
    if sign == b',' {
        return closed(item);
    }
    if sign == b'-' {
        return begun(item);
    }
    Listed {
        wrong: 0,
        number: take_numbers::with_byte(item.number, sign),
        ..item
    }
}

// The set that a word lists, and what is wrong with it.
pub fn lengths_of(word: &[u8]) -> Listed
    ensures { result ≡ lengths_of word.now }
{
    let mut item = Listed {
        wrong: 0,
        set: 0,
        from: NO_RANGE,
        number: NOTHING,
    };
    if table_words::is_word(word, 28) {
        return item;
    }
    for sign in word {
        item = with_sign(item, *sign);
    }
    closed(item)
}
