// The first clause of nesting that fails of one row: 1 a length, 2 a value, 3 required; 0 where none does.
// Any two rows may be handed over. Which row it is, and whether the editions are well formed, is the caller's.
// The clauses are asked in document 01's order, so a value is told only where each inner length is an outer one.
#![tactic(auto)]

ghost use Rattle.std.specs.Prelude.{◌≡◌};
ghost use Rattle.nesting.specs.Decision.{clause_of};

use edition::Row;
use ground_pick::pick;
use nesting_rules::{number_of, numbers_in};

pub fn clause_of(inner: Row, outer: Row) -> u8
    ensures { result ≡ clause_of inner outer }
{
    let lengths = inner.lengths;
    let others = outer.lengths;
    let i = inner.rule;
    let o = outer.rule;
    let shorter = lengths & others == lengths;
    let required = !outer.required | inner.required;
    let takes = numbers_in(
        edition_lengths::permits(lengths, 1),
        number_of(i),
        number_of(o),
    );
    pick(shorter, pick(takes, pick(required, 0, 3), 2), 1)
}
