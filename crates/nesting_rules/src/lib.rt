// The rules by number and back, and whether the outer of two takes whatever the inner takes.
// Any rules and numbers may be handed over. Lengths, and what is required, are the caller's.
// A rule is within text other than the single D by the lengths too: text and code are, where the length 1 is not permitted.
#![tactic(auto)]

ghost use Rattle.std.specs.Prelude.{◌≡◌};
ghost use Rattle.nesting.specs.Decision.{number_of, rule_of, numbers_in};

use rules::Rule;

// The rules by number; the one that leaves D out is 7.
pub fn number_of(rule: Rule) -> u8
    ensures { result ≡ number_of rule }
{
    match rule {
        Rule::Digits => 0,
        Rule::Text => 1,
        Rule::Lead => 2,
        Rule::Code => 3,
        Rule::Birth => 4,
        Rule::Expiry => 5,
        Rule::Raw => 6,
        Rule::NotD => 7,
    }
}

// The rule of a number; a number above 6 is that of the rule that leaves D out.
pub fn rule_of(number: u8) -> Rule
    ensures { result ≡ rule_of number }
{
    match number {
        0 => Rule::Digits,
        1 => Rule::Text,
        2 => Rule::Lead,
        3 => Rule::Code,
        4 => Rule::Birth,
        5 => Rule::Expiry,
        6 => Rule::Raw,
        _ => Rule::NotD,
    }
}

// Whether the outer rule takes whatever the inner takes, rules by number; single says that the length 1 is permitted.
pub fn numbers_in(single: bool, i: u8, o: u8) -> bool
    ensures { result ≡ numbers_in single i o }
{
    (i == o)
        | ((o == 1) & (i != 6))
        | ((o == 0) & ((i == 2) | (i == 4) | (i == 5)))
        | ((o == 7) & ((i == 0) | (i == 2) | (i == 4) | (i == 5)))
        | ((o == 7) & !single & ((i == 1) | (i == 3)))
}
