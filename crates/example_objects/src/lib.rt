// The sixteen objects of a card of which so many of the first rows are as long as can be, the one at the row told showing the clause.
// Any rows, any answer on nesting and any number of long rows may be handed over. What else stands on the card is the caller's.
// Where no row of an object is told, the objects are made all the same, and show nothing.
#![tactic(auto)]

ghost use Rattle.std.specs.Prelude.{◌≡◌, map};
ghost use Rattle.card.specs.Content.{object_of};
ghost use Rattle.example.specs.Cards.{values_of};

use card::Object;
use edition::Row;
use nesting::Nesting;

pub fn objects_of(inner: [Row; 17], outer: [Row; 17], told: Nesting, long: usize) -> [Object; 16]
    ensures { result ≡ map object_of (values_of inner outer told long) }
{
    let rows = example_rows::rows_for(inner, outer, told);
    let mut objects = [Object::ABSENT; 16];
    for (k, object) in objects.iter_mut().enumerate() {
        *object = example_values::object_for(
            example_narrow::part_of(told, k),
            inner[k],
            outer[k],
            example_lengths::length_at(rows, long, k),
        );
    }
    objects
}
