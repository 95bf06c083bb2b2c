// The count that the trailer of a day file tells, the first of two refusals, and an answer of a refusal or a value.
// Any bytes, refusals and values may be lent. Whether the bytes are a day file at all is the caller's to check.
// The count is read of any bytes: of fewer than four it is made of the first byte, and of none it is 0.
#![tactic(auto)]

ghost use Rattle.std.specs.Prelude.{◌≡◌};
ghost use Rattle.card.specs.Refusals.{or_else};
ghost use Rattle.day.specs.Files.{count_in};
ghost use Rattle.day.specs.Calls.{answered};

use card::Refusal;
use day::Answer;

// The count that the trailer of a file tells.
pub fn count_in(file: &[u8]) -> usize
    ensures { result ≡ count_in file.now }
{
    let high = ground_parts::byte_at(file, file.len().saturating_sub(4));
    let low = ground_parts::byte_at(file, file.len().saturating_sub(3));
    usize::from(high) * 256 + usize::from(low)
}

// The first of two refusals, and the second where the first has no number.
pub fn or_else(first: Refusal, second: Refusal) -> Refusal
    ensures { result ≡ or_else first second }
{
    if first.number != 0 {
        return first;
    }
    second
}

// A refusal, or a value where nothing is refused.
pub fn answer_of(refusal: Refusal, value: usize) -> Answer
    ensures { result ≡ answered refusal value }
{
    if refusal.number != 0 {
        return Err(refusal);
    }
    Ok(value)
}
