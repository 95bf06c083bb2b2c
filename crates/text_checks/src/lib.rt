// The first line of a card's text that is wrong, and why.
// Any text may be lent. Whether an edition writes the record that the text makes, the writer tells.
// A line for the checksum is a fault whatever it says; a line without a name is one too, unless it is blank or a remark.
#![tactic(auto)]

ghost use Rattle.std.specs.Prelude.{◌≡◌};
ghost use Rattle.card_text.specs.Faults.{fault_of_line, fault_at, first_fault};

use card_text::{Fault, Wrong};

// What is wrong with a line with this number, where something is.
fn fault_of_line(text: &[u8], line: &[u8], number: usize) -> Option<Wrong>
    ensures { result ≡ fault_of_line text.now line.now number }
{
    let key = line_keys::key_of(line);
    if key == card_lines::SKIPPED {
        return None;
    }
    if key == card_lines::UNKNOWN {
        return Some(Wrong::Name);
    }
    if key == card_lines::CHECKSUM {
        return Some(Wrong::Checksum);
    }
    let first = text_entries::line_of(text, key).unwrap_or(0);
    if first < number {
        return Some(Wrong::Again);
    }
    text_values::fault_of_value(key, line_values::value_in(line))
}

// The fault of a line with this number.
fn fault_at(wrong: Wrong, line: usize, whole: &[u8]) -> Fault
    ensures { result ≡ fault_at wrong line whole.now }
{
    Fault {
        wrong,
        line,
        key: line_keys::key_of(whole),
        place: text_values::count_letters(line_values::value_in(whole)),
    }
}

// The first fault of a text, line by line, where there is one.
pub fn check(text: &[u8]) -> Option<Fault>
    ensures { result ≡ first_fault text.now }
{
    let mut at = 0;
    let mut line = 1;
    while at < text.len() {
        let feed = line_ends::feed_from(text, at);
        if let Some(wrong) = fault_of_line(text, &text[at..feed], line) {
            return Some(fault_at(wrong, line, &text[at..feed]));
        }
        at = feed + 1;
        line += 1;
    }
    None
}
