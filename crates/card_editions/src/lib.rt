// A table that is not well formed is refused: 2, with the tag of its first bad row.
// Any edition may be asked about.
// Where all rows are right and the number is 0, the tag is 0.
#![tactic(auto)]

ghost use Rattle.std.specs.Prelude.{◌≡◌};
ghost use Rattle.edition.specs.Rows.{formed_of};
ghost use Rattle.card.specs.Refusals.{bad_row};

use card::Refusal;
use edition::{Edition, Formed};

// 2, with the tag of the first bad row; 0 where it is the number.
pub fn refuse_edition(edition: Edition) -> Refusal
    ensures { result ≡ bad_row (formed_of edition) }
{
    match edition.formed() {
        Formed::Well => Refusal::NONE,
        Formed::Bad(row) => Refusal::new(2, 0, edition_tags::tag_of(row)),
        Formed::Unnumbered => Refusal::new(2, 0, 0),
    }
}
