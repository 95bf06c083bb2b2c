// The record of a card of which so many of the first rows are as long as can be: the objects, address 0, and the inner edition's number.
// Any two editions, any answer on nesting and any number of long rows may be handed over. How many rows are to be long is the caller's.
// The free bytes and the last byte are 0.
#![tactic(auto)]

ghost use Rattle.std.specs.Prelude.{◌≡◌};
ghost use Rattle.card.specs.Content.{record_of};
ghost use Rattle.example.specs.Cards.{card_of};

use card::Record;
use edition::Edition;
use nesting::Nesting;

pub fn card_of(inner: Edition, outer: Edition, told: Nesting, long: usize) -> Record
    ensures { result ≡ record_of inner.number (card_of inner outer told long) }
{
    let rows = inner.rows;
    let others = outer.rows;
    Record {
        first: 0x92,
        free: [0; 12],
        last: 0,
        objects: example_objects::objects_of(rows, others, told, long),
        number: inner.number,
    }
}
