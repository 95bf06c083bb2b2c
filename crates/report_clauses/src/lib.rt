// The first clause of a well-formed edition that fails of one row; 0 where none does.
// Any row may be handed over, as the row of the checksum or as another. Which row it is is the caller's.
// Of the row of the checksum it is told that it is not required before its lengths and before its rule.
#![tactic(auto)]

ghost use Rattle.std.specs.Prelude.{◌≡◌};
ghost use Rattle.report.specs.Clauses.{clause_of};

use edition::Row;
use ground_pick::pick;
use report_rules::rule_clause;

pub fn clause_of(row: Row, last: bool) -> u8
    ensures { result ≡ clause_of last row }
{
    let lengths = row.lengths;
    let within = (lengths % 2 == 0) & (lengths < 1 << 29);
    let of_rule = rule_clause(row, last);
    let of_last = pick(
        !last | row.required,
        pick(!last | (lengths == 1 << 1), of_rule, 4),
        3,
    );
    pick(0 < lengths, pick(within, of_last, 2), 1)
}
