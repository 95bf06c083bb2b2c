// A value in hex digits, capital or small: whether it is so many of them, and the byte of each two.
// Any value may be lent. How many digits are due, and what the bytes mean, is the caller's.
// A byte of a value that is no hex digit counts as 0, so that each value has bytes; `is_hex` tells whether they were written.
#![tactic(auto)]

ghost use Rattle.std.specs.Prelude.{◌≡◌, ◌<◌, IfSome};
ghost use Rattle.ground.specs.Lists.{leading};
ghost use Rattle.card_text.specs.Hex.{digit_value, is_digit, is_hex, byte_at};

// What a hex digit stands for, where it is one.
#[tactic(auto, unfolding(card_text::specs::Hex::digit_value))]
pub fn digit_value(digit: u8) -> Option<u8>
    ensures value { result ≡ digit_value digit }
    ensures upper_bound { IfSome result (λ n. n < 16) }
{
    match digit {
        b'0'..=b'9' => Some(digit - b'0'),
        b'A'..=b'F' => Some(digit - b'A' + 10),
        b'a'..=b'f' => Some(digit - b'a' + 10),
        _ => None,
    }
}

// How many hex digits stand at the head of a value.
fn count_digits(value: &[u8]) -> usize
    ensures { result ≡ leading is_digit value.now }
{
    for (i, digit) in value.iter().enumerate() {
        if digit_value(*digit).is_none() {
            return i;
        }
    }
    value.len()
}

// Whether a value is so many hex digits.
pub fn is_hex(value: &[u8], digits: usize) -> bool
    ensures { result ≡ is_hex value.now digits }
{
    (value.len() == digits) & (count_digits(value) == digits)
}

// The byte at a place of a value in hex digits; 0 past the end.
pub fn byte_at(value: &[u8], i: usize) -> u8
    ensures { result ≡ byte_at value.now i }
{
    if i >= value.len() / 2 {
        return 0;
    }
    let high = digit_value(ground_parts::byte_at(value, 2 * i)).unwrap_or(0);
    let low = digit_value(ground_parts::byte_at(value, 2 * i + 1)).unwrap_or(0);
    high * 16 + low
}
