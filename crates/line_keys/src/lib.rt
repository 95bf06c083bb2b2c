// What a line of a card's text speaks of, by the name or tag before its colon.
// Any bytes may be lent; a line is lent without its line feed. What the line says is told by `line_values`.
// A line that is blank or starts with # speaks of nothing and is no fault; one without a colon has no name.
#![tactic(auto)]

ghost use Rattle.std.specs.Prelude.{◌≡◌};
ghost use Rattle.card_lines.specs.Keys.{key_trimmed, key_of};

use card_lines::{SKIPPED, UNKNOWN};

// The same as key_of, of a line without blanks at its head.
fn key_trimmed(line: &[u8]) -> usize
    ensures { result ≡ key_trimmed line.now }
{
    if line.len() == 0 {
        return SKIPPED;
    }
    if line[0] == b'#' {
        return SKIPPED;
    }
    let colon = line_ends::find(line, 0, b':');
    if colon >= line.len() {
        return UNKNOWN;
    }
    named_keys::key_named(&line[0..colon])
}

// What a line speaks of: 0 to 15 the objects in card order, 16 address 0, 17 the free bytes, 18 the last byte, 19 the checksum; 20 a line that
// names none of them, 21 one that is blank or starts with #.
pub fn key_of(line: &[u8]) -> usize
    ensures { result ≡ key_of line.now }
{
    key_trimmed(line_trims::trimmed(line))
}
