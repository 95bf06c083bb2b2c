// The first row in card order of which a clause of nesting fails, and the clause.
// Any rows may be handed over. Whether they are those of well-formed editions is the caller's to ask.
// Where no clause fails of any row, the row is 17, past the last.
#![tactic(auto)]

ghost use Rattle.std.specs.Prelude.{◌≡◌};
ghost use Rattle.nesting.specs.Decision.{nesting_from};

use edition::Row;
use nesting::Nesting;

pub fn rows_nested(inner: [Row; 17], outer: [Row; 17]) -> Nesting
    ensures { result ≡ nesting_from 0 inner outer }
{
    for (k, (i, o)) in inner.iter().zip(outer.iter()).enumerate() {
        let clause = nesting_clauses::clause_of(*i, *o);
        if clause != 0 {
            return Nesting { clause, row: k };
        }
    }
    Nesting { clause: 0, row: 17 }
}
