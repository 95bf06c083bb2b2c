// The first row in card order of which a clause of a well-formed edition fails, and the clause.
// Any rows may be handed over. The edition's number is the caller's.
// Where no clause fails of any row, the row is 17, past the last.
#![tactic(auto)]

ghost use Rattle.std.specs.Prelude.{◌≡◌};
ghost use Rattle.report.specs.Clauses.{report_from};

use edition::Row;
use report::Finding;

pub fn report_rows(rows: [Row; 17]) -> Finding
    ensures { result ≡ report_from 0 rows }
{
    for (k, row) in rows.iter().enumerate() {
        let clause = report_clauses::clause_of(*row, k == 16);
        if clause != 0 {
            return Finding { clause, row: k };
        }
    }
    Finding { clause: 0, row: 17 }
}
