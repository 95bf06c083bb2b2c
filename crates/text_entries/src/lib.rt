// Of a card's text the line that speaks of something: its number, and what it says.
// Any text and any key may be lent. What a line speaks of is told by `card_lines`; whether its value is right, by `text_values`.
// The first line with a key counts, wherever others with it stand; where there is none, there is no number, and the value is empty.
#![tactic(auto)]

ghost use Rattle.std.specs.Prelude.{◌≡◌, [], MatchOption, option_map};
ghost use Rattle.card_lines.specs.Lines.{lines};
ghost use Rattle.card_text.specs.Entries.{line_with, line_of, value_of};

// The first line with this key, and its number, counted from 1.
fn entry(text: &[u8], key: usize) -> Option<(usize, &[u8])>
    ensures number { option_map (λ found. found.0) result ≡ line_of key text.now }
    ensures line { MatchOption result ([] ≡ line_with key (lines text.now))
        (λ found. found.1.now ≡ line_with key (lines text.now)) }
{
    let mut at = 0;
    let mut number = 1;
    while at < text.len() {
        let feed = line_ends::feed_from(text, at);
        if line_keys::key_of(&text[at..feed]) == key {
            return Some((number, &text[at..feed]));
        }
        at = feed + 1;
        number += 1;
    }
    None
}

// The number of the first line with this key, counted from 1, where there is one. The keys are those of `line_keys::key_of`.
pub fn line_of(text: &[u8], key: usize) -> Option<usize>
    ensures { result ≡ line_of key text.now }
{
    let (number, _) = entry(text, key)?;
    Some(number)
}

// The value that the first line with this key gives; empty where there is none.
pub fn value(text: &[u8], key: usize) -> &[u8]
    ensures { result.now ≡ value_of key text.now }
{
    match entry(text, key) {
        Some((_, line)) => line_values::value_in(line),
        None => &[],
    }
}
