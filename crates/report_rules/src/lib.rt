// The first clause that fails of those that speak of a row's rule, 5 to 8; 0 where none does.
// Any row may be handed over, as the row of the checksum or as another. The clauses before these are the caller's.
// Only the row of the checksum is raw, and only a row of a date has one length.
#![tactic(auto)]

ghost use Rattle.std.specs.Prelude.{◌≡◌};
ghost use Rattle.report.specs.Clauses.{rule_clauses, first_failing};

use edition::{Row, by_rule};
use ground_pick::pick;

// The first clause from 5 on, those that speak of the rule, that fails of a row; 0 where none does. Last says that it is the row of the checksum.
pub fn rule_clause(row: Row, last: bool) -> u8
    ensures { result ≡ first_failing 5 (rule_clauses last row) }
{
    let rule = row.rule;
    let lengths = row.lengths;
    let raw = by_rule(rule, false, false, false, true);
    let others = by_rule(rule, true, true, true, false);
    let births = by_rule(rule, true, lengths == 1 << 8, true, true);
    let expiries = by_rule(rule, true, true, lengths == 1 << 4, true);
    let dates = pick(births, pick(expiries, 0, 8), 7);
    pick(!last | raw, pick(last | others, dates, 6), 5)
}
