// Where the values of an image stand, or its refusal.
// The calls are total and promise one answer for any bytes and any edition, handed over or lent as a table; none keeps anything.
// Under an edition that is not well formed every image of 256 bytes is refused with 2.
#![tactic(auto)]

ghost use Rattle.std.specs.Prelude.{◌≡◌};
ghost use Rattle.card.specs.Places.{places as placesIn};
ghost use Rattle.wire_tables.specs.Tables.{lent_edition};

use card::Places;
use edition::Edition;

// Where the values of an image stand, or its refusal.
pub fn places(edition: Edition, image: &[u8]) -> Places
    ensures { result ≡ placesIn edition image.now }
{
    let known = card_editions::refuse_edition(edition);
    reader_walk::places_under(known, edition, image)
}

// The same as places, under the edition of a lent table.
pub fn places_lent(table: &[u8], image: &[u8]) -> Places
    ensures { result ≡ placesIn (lent_edition table.now) image.now }
{
    let lent = shipped_tables::lent_edition(table);
    reader_walk::places_under(lent.refusal, lent.edition, image)
}
