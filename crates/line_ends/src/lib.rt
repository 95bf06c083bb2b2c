// Where a line of a text ends.
// Any text, and any place in it or past it, may be lent. What the line says is told by `line_keys` and `line_values`.
// A place past the end of the text is its own answer: nothing stands from there on.
#![tactic(auto)]

ghost use Rattle.std.specs.Prelude.{◌≡◌, ◌+◌, ◌≤◌, length, drop};
ghost use Rattle.card_lines.specs.Lines.{before, feed_from};

// Where a byte stands first from `at` on; where it does not, the end of the text.
pub fn find(text: &[u8], at: usize, byte: u8) -> usize
    ensures value { result ≡ at + before byte (drop at text.now) }
    ensures lower_bound { (at ≤ result) × (at ≤ length text.now → result ≤ length text.now) }
{
    if at > text.len() {
        return at;
    }
    for end in at..text.len() {
        if text[end] == byte {
            return end;
        }
    }
    text.len()
}

// Where the line that starts at `at` ends: at its line feed, or where the text ends.
pub fn feed_from(text: &[u8], at: usize) -> usize
    ensures value { result ≡ feed_from text.now at }
    ensures lower_bound { (at ≤ result) × (at ≤ length text.now → result ≤ length text.now) }
{
    find(text, at, b'\n')
}
