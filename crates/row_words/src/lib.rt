// Which words of a table's text say what a row has: its rule, and whether it is required.
// Any rule may be lent. The words themselves are `table_words`'s.
// Text without the letter D is a rule of its own, with the last of the rules' words.
#![tactic(auto)]

ghost use Rattle.std.specs.Prelude.{◌≡◌, ◌<◌};
ghost use Rattle.table_text.specs.Texts.{presence_word, rule_word};

use rules::Rule;

// The number of the word for a rule.
pub fn rule_word(rule: Rule) -> usize
    ensures value { result ≡ rule_word rule }
    ensures upper_bound { result < 29 }
{
    match rule {
        Rule::Digits => 19,
        Rule::Text => 20,
        Rule::Lead => 21,
        Rule::Code => 22,
        Rule::Birth => 23,
        Rule::Expiry => 24,
        Rule::Raw => 25,
        Rule::NotD => 26,
    }
}

// The number of the word that says whether a row is required.
pub fn presence_word(required: bool) -> usize
    ensures value { result ≡ presence_word required }
    ensures upper_bound { result < 29 }
{
    if required { 17 } else { 18 }
}
