// The call on two tables: whether the edition of one is nested in that of the other, as one number.
// Any bytes may be lent; a table of another size, or one that is not well formed, is not nested and has nothing nested in it.
// Nothing is refused: the clause that fails is told as the place, with number 0.
#![tactic(auto)]

ghost use Rattle.std.specs.Prelude.{◌≡◌};
ghost use Rattle.calls_tables.specs.Nestings.{tables_nesting, packed_nesting};

use card::Refusal;
use nesting::Nesting;

fn pack_nesting(answer: Nesting) -> u64
    ensures { result ≡ packed_nesting answer }
{
    let clause = answer.clause;
    let shown = Refusal::new(0, clause as usize, edition_tags::tag_of(answer.row));
    wire::pack_value(shown, (clause == 0) as usize)
}

// Whether the edition of the inner table is nested in that of the outer: the value is 1 for yes; else the clause that fails is the place, and the row's tag the tag.
pub fn nested(inner: &[u8], outer: &[u8]) -> u64
    ensures { result ≡ packed_nesting (tables_nesting inner.now outer.now) }
{
    let editions_nested = nesting_answer::nested(
        wire_tables::edition_of(inner),
        wire_tables::edition_of(outer),
    );
    pack_nesting(editions_nested)
}
