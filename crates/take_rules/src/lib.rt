// The rule that a word of a table's text names, by its number.
// Any number may be lent. Which word has which number is told by `table_words`.
// A number past the last is that of the last rule.
#![tactic(auto)]

ghost use Rattle.std.specs.Prelude.{◌≡◌};
ghost use Rattle.table_take.specs.Taking.{rule_by};

use rules::Rule;

// The rules in the order of their words.
pub fn rule_by(number: u8) -> Rule
    ensures { result ≡ rule_by number }
{
    nesting_rules::rule_of(number)
}
