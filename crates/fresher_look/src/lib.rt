// One of two cards that are compared: its refusal, its validity in months, and where its family name stands.
// Any edition and image may be lent. Which card is the fresher is `fresher_weigh`'s.
// Of an image that is refused all but the refusal is 0.
#![tactic(auto)]

ghost use Rattle.std.specs.Prelude.{◌≡◌, true, false};
ghost use Rattle.edition.specs.Rows.{by_rule};
ghost use Rattle.fresher.specs.Comparing.{validity_in, expires, card_of};

use edition::Edition;
use fresher::Card;
use fresher_months::months_of;
use rules::Rule;

fn is_expiry(rule: Rule) -> bool
    ensures { result ≡ by_rule rule false false true false }
{
    matches!(rule, Rule::Expiry)
}

// Whether the rule of row 8D is expiry.
pub fn is_dated(edition: Edition) -> bool
    ensures { result ≡ expires edition }
{
    let row = edition.rows[15];
    let rule = row.rule;
    is_expiry(rule)
}

// The months of a validity; there are none where its part is empty.
#[tactic(auto, unfolding(fresher::specs::Comparing::validity_in))]
fn validity_in(validity: &[u8]) -> Option<u16>
    ensures { result ≡ validity_in validity.now }
{
    if validity.len() == 0 {
        return None;
    }
    Some(months_of(validity))
}

// What the places of a card tell of it.
pub fn look(edition: Edition, image: &[u8]) -> Card
    ensures { result ≡ card_of edition image.now }
{
    let table = reader_places::places(edition, image);
    let refusal = table.refusal;
    let starts = table.starts;
    let lengths = table.lengths;
    let validity = lookup::part_at(image, table, 15);
    Card {
        refusal,
        months: validity_in(validity),
        start: starts[9],
        length: lengths[9],
    }
}
