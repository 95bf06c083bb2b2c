// What is wrong with a value of a card's text: a letter that DIN 66003 lacks, or not the hex digits that are due.
// Any value and any key may be lent. Whether the value is one that an edition takes, others ask.
// Of a value 255 letters are looked at, and no more: behind them nothing is wrong.
#![tactic(auto)]

ghost use Rattle.std.specs.Prelude.{◌≡◌};
ghost use Rattle.card_text.specs.Faults.{letters_taken, digits_due, fault_of_value};

use card_text::Wrong;

// Where the first letter stands that DIN 66003 lacks; where there is none, the end of the value.
pub fn count_letters(value: &[u8]) -> usize
    ensures { result ≡ letters_taken value.now }
{
    let mut room = [0u8; 255];
    let turned = letters_coded::from_utf8(value, &mut room);
    if turned.made == 255 {
        return value.len();
    }
    turned.taken
}

// How many hex digits are due in a line with this key.
fn digits_due(key: usize) -> usize
    ensures { result ≡ digits_due key }
{
    if key == card_lines::FREE { 24 } else { 2 }
}

// What is wrong with the value of a line with this key, where something is.
pub fn fault_of_value(key: usize, value: &[u8]) -> Option<Wrong>
    ensures { result ≡ fault_of_value key value.now }
{
    if key < card_lines::FIRST {
        if count_letters(value) < value.len() {
            return Some(Wrong::Letter);
        }
        return None;
    }
    if text_hex::is_hex(value, digits_due(key)) {
        None
    } else {
        Some(Wrong::Digits)
    }
}
