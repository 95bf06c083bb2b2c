// Whether one edition is nested in another; where it is not, the first row in card order that shows it, and the clause that fails there.
// Any two editions may be handed over. What is done about an edition that is not nested is the caller's.
// An edition that is not well formed is nested in none and has none nested in it; sums and the template's length are not looked at.
#![tactic(auto)]

ghost use Rattle.std.specs.Prelude.{◌≡◌};
ghost use Rattle.edition.specs.Rows.{formed_of};
ghost use Rattle.nesting.specs.Decision.{is_well, nesting_of};

use edition::{Edition, Formed};
use nesting::Nesting;

fn is_formed(edition: Edition) -> bool
    ensures { result ≡ is_well (formed_of edition) }
{
    let formed = edition.formed();
    match formed {
        Formed::Well => true,
        Formed::Bad(_) => false,
        Formed::Unnumbered => false,
    }
}

// Whether the inner edition is nested in the outer.
pub fn nested(inner: Edition, outer: Edition) -> Nesting
    ensures { result ≡ nesting_of inner outer }
{
    if !is_formed(inner) {
        return Nesting { clause: 4, row: 17 };
    }
    if !is_formed(outer) {
        return Nesting { clause: 5, row: 17 };
    }
    let rows = inner.rows;
    let others = outer.rows;
    nesting_rows::rows_nested(rows, others)
}
