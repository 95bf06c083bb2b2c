// What is asked of the object of a row: the clause, and at the row told the inner row narrowed to what shows it: a length that the outer lacks, a value that it does not take, or absent.
// Any two rows and any clause may be handed over. Which row is told is the caller's.
// Beside the rule that leaves D out the length is 1, since only the single D is not taken by it.
#![tactic(auto)]

ghost use Rattle.std.specs.Prelude.{◌≡◌};
ghost use Rattle.example.specs.Cards.{part_of, narrow};

use edition::Row;
use ground_pick::pick;
use nesting::Nesting;

pub fn narrow(clause: u8, inner: Row, outer: Row) -> Row
    ensures { result ≡ narrow clause inner outer }
{
    let lengths = inner.lengths;
    let rule = inner.rule;
    let other = outer.rule;
    let values = pick(nesting_rules::number_of(other) == 7, 1 << 1, lengths);
    let present = pick(clause == 3, 0, values);
    Row {
        required: clause != 3,
        rule,
        lengths: pick(clause == 1, lengths ^ (lengths & outer.lengths), present),
    }
}

// What is asked of the object of row k: at the row told the clause, and 4 elsewhere.
pub fn part_of(told: Nesting, k: usize) -> u8
    ensures { result ≡ part_of told k }
{
    if k == told.row {
        return told.clause;
    }
    4
}
