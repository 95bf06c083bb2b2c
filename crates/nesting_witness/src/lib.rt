// A value that the inner row takes and the outer does not, where the clause of values fails.
// Any two rows may be handed over. Whether that clause fails is for `nesting_clauses::clause_of` to say.
// Where it does not fail this is a value too, of the shortest inner length, and shows nothing.
#![tactic(auto)]

ghost use Rattle.std.specs.Prelude.{◌≡◌};
ghost use Rattle.nesting.specs.Decision.{by_name, witness_of};

use edition::Row;
use ground_pick::pick;
use nesting::Sample;
use nesting_rules::number_of;
use rules::Rule;

// A byte for each rule.
fn by_name(rule: Rule, digits: u8, text: u8, lead: u8, code: u8, date: u8) -> u8
    ensures { result ≡ by_name rule digits text lead code date }
{
    match rule {
        Rule::Digits => digits,
        Rule::Text => text,
        Rule::Lead => lead,
        Rule::Code => code,
        Rule::Birth => b'0',
        Rule::Expiry => date,
        Rule::Raw => 0,
        Rule::NotD => text,
    }
}

pub fn witness(inner: Row, outer: Row) -> Sample
    ensures { result ≡ witness_of inner outer }
{
    let i = inner.rule;
    let o = outer.rule;
    let left = number_of(o) == 7;
    Sample {
        length: edition_lengths::shortest(inner.lengths),
        first: pick(left, b'D', by_name(i, b'2', b'B', b'3', b'M', b'0')),
        rest: pick(left, b'D', by_name(i, b'2', b'B', b'3', b'M', b'2')),
    }
}
