// Of the cards whose first rows are as long as can be the one with as few such rows as give the template its 70 bytes.
// Any two editions and any answer on nesting may be handed over. Whether a row of an object is told is the caller's to ask.
// Where no number of rows is enough, all 16 are long, and the card is short all the same.
#![tactic(auto)]

ghost use Rattle.std.specs.Prelude.{◌≡◌};
ghost use Rattle.card.specs.Content.{record_of};
ghost use Rattle.example.specs.Cards.{chosen_card};

use card::Record;
use edition::Edition;
use nesting::Nesting;

// The first rows are as long as can be, each with those of its sum: as few of them as give the template its 70 bytes, and all 16 where none do.
pub fn chosen_card(inner: Edition, outer: Edition, told: Nesting) -> Record
    ensures { result ≡ record_of inner.number (chosen_card inner outer told) }
{
    for long in 0..16 {
        let record = example_record::card_of(inner, outer, told, long);
        if checks::objects_size(record) + 3 >= 70 {
            return record;
        }
    }
    example_record::card_of(inner, outer, told, 16)
}
