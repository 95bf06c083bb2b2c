// The inner edition's rows, the one told narrowed to what shows the clause told: a length that the outer lacks, a value that it does not take, or absent.
// Any rows and any answer on nesting may be handed over. Which lengths are chosen of the rows is the caller's.
// Where no row is told, the rows are the inner's as they are.
#![tactic(auto)]

ghost use Rattle.std.specs.Prelude.{◌≡◌};
ghost use Rattle.example.specs.Cards.{rows_for};

use edition::Row;
use nesting::Nesting;

pub fn rows_for(inner: [Row; 17], outer: [Row; 17], told: Nesting) -> [Row; 17]
    ensures { result ≡ rows_for inner outer told }
{
    let mut rows = inner;
    let at = told.row;
    if at >= 17 {
        return rows;
    }
    let i = inner[at];
    let o = outer[at];
    rows[at] = example_narrow::narrow(told.clause, i, o);
    rows
}
