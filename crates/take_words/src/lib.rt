// What a line of a table's text says, word for word: the number of the edition, or a row.
// Any line and any number of a line that is due may be lent; a line is lent without its line feed.
// Behind a wrong word no other is looked at; a word that is missing is wrong as another word would be.
#![tactic(auto)]

ghost use Rattle.std.specs.Prelude.{◌≡◌, cond, ◌≤◌};
ghost use Rattle.ground.specs.Lists.{same_list};
ghost use Rattle.ground.specs.Rooms.{hex};
ghost use Rattle.edition.specs.Rows.{tag_of};
ghost use Rattle.table_take.specs.Words.{rule_found, marked, head_word, with_presence, with_rule, with_lengths, row_word, word_taken, missing, words_taken, line_taken};

use table_take::{Fields, Kind};

fn fault(right: bool, number: u8) -> u8
    ensures { result ≡ cond right 0 number }
{
    if right { 0 } else { number }
}

// Whether a word is the tag of row k.
fn is_tag(word: &[u8], k: usize) -> bool
    ensures { result ≡ same_list word.now (hex (tag_of k)) }
{
    let mut tag = [0u8; 2];
    ground_digits::put_hex(&mut tag, 0, edition_tags::tag_of(k));
    ground_parts::is_same(word, &tag)
}

// The number of the rule that a word names, as the vocabulary has it; 27 for another word.
fn rule_found(word: &[u8]) -> u8
    ensures value { result ≡ rule_found word.now 19 8 }
    ensures lower_bound { 19 ≤ result }
{
    for n in 19..27 {
        if table_words::is_word(word, n as usize) {
            return n;
        }
    }
    27
}

fn marked(got: Fields, wrong: u8, field: u8) -> Fields
    ensures { result ≡ marked got wrong field }
{
    Fields {
        wrong,
        field,
        ..got
    }
}

// A word of the first line.
fn head_word(got: Fields, word: &[u8]) -> Fields
    ensures { result ≡ head_word got word.now }
{
    if got.field == 0 {
        return marked(got, fault(table_words::is_word(word, 27), 1), 1);
    }
    if got.field != 1 {
        return marked(got, 10, got.field);
    }
    let number = take_numbers::number_of(word);
    Fields {
        wrong: fault(number < 256, 2),
        field: 2,
        number: (number % 256) as u8,
        ..got
    }
}

fn with_presence(got: Fields, word: &[u8]) -> Fields
    ensures { result ≡ with_presence got word.now }
{
    let required = table_words::is_word(word, 17);
    Fields {
        wrong: fault(required | table_words::is_word(word, 18), 5),
        field: 3,
        required,
        ..got
    }
}

fn with_rule(got: Fields, word: &[u8]) -> Fields
    ensures { result ≡ with_rule got word.now }
{
    let rule = rule_found(word);
    Fields {
        wrong: fault(rule < 27, 6),
        field: 4,
        rule: rule - 19,
        ..got
    }
}

fn with_lengths(got: Fields, word: &[u8]) -> Fields
    ensures { result ≡ with_lengths got word.now }
{
    let listed = take_sets::lengths_of(word);
    Fields {
        wrong: listed.wrong,
        field: 5,
        lengths: listed.set,
        ..got
    }
}

// A word of the line of row k.
fn row_word(k: usize, got: Fields, word: &[u8]) -> Fields
    ensures { result ≡ row_word k got word.now }
{
    if got.field == 0 {
        return marked(got, fault(is_tag(word, k), 3), 1);
    }
    if got.field == 1 {
        return marked(got, fault(table_words::is_word(word, k), 4), 2);
    }
    if got.field == 2 {
        return with_presence(got, word);
    }
    if got.field == 3 {
        return with_rule(got, word);
    }
    if got.field == 4 {
        return with_lengths(got, word);
    }
    marked(got, 10, got.field)
}

// A word of the line that is due: 0 is the first line, and k + 1 that of row k. Behind a wrong word no other is looked at.
fn word_taken(due: usize, got: Fields, word: &[u8]) -> Fields
    ensures { result ≡ word_taken due got word.now }
{
    if got.wrong != 0 {
        return got;
    }
    if due == 0 {
        return head_word(got, word);
    }
    row_word(due - 1, got, word)
}

fn words_taken(due: usize, line: &[u8]) -> Fields
    ensures { result ≡ words_taken due line.now }
{
    let mut got = Fields {
        wrong: 0,
        field: 0,
        number: 0,
        required: false,
        rule: 0,
        lengths: 0,
    };
    let mut at = 0;
    while at < line.len() {
        let start = take_cuts::behind(line, at, Kind::Blanks);
        let end = take_cuts::behind(line, start, Kind::Signs);
        if start < end {
            got = word_taken(due, got, &line[start..end]);
        }
        at = end + 1;
    }
    got
}

// What is wrong with a line that has so many words, where nothing is wrong with any of them.
fn missing(due: usize, field: u8) -> u8
    ensures { result ≡ missing due field }
{
    if due == 0 {
        if field < 2 {
            return field + 1;
        }
        return 0;
    }
    if field < 5 {
        return field + 3;
    }
    0
}

// What a line says.
pub fn line_taken(due: usize, line: &[u8]) -> Fields
    ensures { result ≡ line_taken due line.now }
{
    let got = words_taken(due, line);
    if got.wrong != 0 {
        return got;
    }
    marked(got, missing(due, got.field), got.field)
}
