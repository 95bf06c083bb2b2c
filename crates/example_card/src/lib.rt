// A card that shows that one edition is not nested in another: the inner takes it, and the outer does not.
// Any two editions may be handed over. Whether there is such a card is for `writer::write` to say: the inner writes the record exactly where there is one.
// Where the inner is nested in the outer, or one is not well formed, there is no such card: the record is the empty one, which no edition writes.
#![tactic(auto)]

ghost use Rattle.std.specs.Prelude.{◌≡◌};
ghost use Rattle.example.specs.Cards.{example_of};

use card::Record;
use edition::Edition;

pub fn example(inner: Edition, outer: Edition) -> Record
    ensures { result ≡ example_of inner outer }
{
    let told = nesting_answer::nested(inner, outer);
    if told.row >= 16 {
        return Record::empty();
    }
    example_choice::chosen_card(inner, outer, told)
}
