// A number that is written in decimal, byte by byte or as a word.
// Any word, and any number before a byte, may be lent.
// What is no number below 256 is told by one above 255: 256 for a larger one, 257 where a byte is no digit, 258 where nothing is written.
#![tactic(auto)]

ghost use Rattle.std.specs.Prelude.{◌≡◌, ◌<◌};
ghost use Rattle.table_take.specs.Numbers.{with_digit, with_byte, number_of};

use table_take::NOTHING;

// The number with one digit more; 256 stands for all that are larger than 255.
fn with_digit(number: u16, digit: u16) -> u16
    requires { digit < 10 }
    ensures { result ≡ with_digit number digit }
{
    if number == NOTHING {
        return digit;
    }
    if number > 256 {
        return number;
    }
    let more = number * 10 + digit;
    if more > 255 {
        return 256;
    }
    more
}

// The number with one byte more; 257 where a byte is no digit.
pub fn with_byte(number: u16, byte: u8) -> u16
    ensures { result ≡ with_byte number byte }
{
    if byte < b'0' {
        return 257;
    }
    if byte > b'9' {
        return 257;
    }
    with_digit(number, (byte - b'0') as u16)
}

// The number that a word writes: 256 if it is larger than 255, more if the word is no number.
pub fn number_of(word: &[u8]) -> u16
    ensures { result ≡ number_of word.now }
{
    let mut number = NOTHING;
    for b in word {
        number = with_byte(number, *b);
    }
    number
}
