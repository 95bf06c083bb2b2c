// Whether an edition is well formed; where it is not, the first row in card order that is not, and the clause of the definition that fails there first.
// Any edition may be handed over. Reader and writer ask `Edition::formed`, which tells the row alone.
// Of row 8E the clauses go by document 01's order: that it is not required is told before its lengths and before its rule.
#![tactic(auto)]

ghost use Rattle.std.specs.Prelude.{◌≡◌};
ghost use Rattle.report.specs.Clauses.{report_of};

use edition::Edition;
use report::Finding;

// What is amiss with an edition.
pub fn report(edition: Edition) -> Finding
    ensures { result ≡ report_of edition }
{
    let rows = edition.rows;
    let found = report_rows::report_rows(rows);
    if (found.clause == 0) & (edition.number == 0) {
        return Finding { clause: 9, row: 17 };
    }
    found
}
