// The one walk over an image: what stands before the objects, the objects, what stands behind them.
// Any bytes and any edition may be lent. The refusal of the edition is the caller's: with its own the places are those of the image.
// The refusals are a chain, told in the document's order whatever is found first.
#![tactic(auto)]

ghost use Rattle.std.specs.Prelude.{◌≡◌};
ghost use Rattle.edition.specs.Rows.{formed_of};
ghost use Rattle.card.specs.Refusals.{or_else, bad_row};
ghost use Rattle.card.specs.Sums.{sums_refusal, tag_before};
ghost use Rattle.card.specs.Places.{places as placesIn};
ghost use Rattle.frame.specs.Checks.{Framed};
ghost use Rattle.reader_steps.specs.Steps.{end_refusal, settled, places_by};

use card::{Places, Refusal};
use edition::Edition;

// 11, then 13, then 14 to 17, where the values start and are as long as the table says.
fn check_behind(image: &[u8], end: usize, starts: [u8; 16], lengths: [u8; 16]) -> Refusal
    requires { Framed image.now end }
    ensures { result ≡ or_else (sums_refusal (tag_before starts) lengths) (end_refusal image.now) }
{
    let sums = card_sums::check_sums(starts, lengths);
    if sums.number != 0 {
        return sums;
    }
    reader_end::check_end(image, end)
}

// The table as it is, unless something behind the objects is refused.
fn settle(image: &[u8], end: usize, table: Places) -> Places
    requires { Framed image.now end }
    ensures { result ≡ settled image.now table }
{
    let refusal = table.refusal;
    if refusal.number != 0 {
        return Places::refused(refusal);
    }
    let starts = table.starts;
    let lengths = table.lengths;
    let behind = check_behind(image, end, starts, lengths);
    if behind.number != 0 {
        return Places::refused(behind);
    }
    table
}

// Where the values of an image stand, or its refusal, under an edition whose refusal is said to be `known`.
pub fn places_under(known: Refusal, edition: Edition, image: &[u8]) -> Places
    ensures value { result ≡ places_by known edition image.now }
    ensures value_2 { known ≡ bad_row (formed_of edition) → result ≡ placesIn edition image.now }
{
    let front = frame_front::check_front(image, known);
    let refusal = front.refusal;
    if refusal.number != 0 {
        return Places::refused(refusal);
    }
    let rows = edition.rows;
    let start = front.start;
    let end = front.end;
    let table = objects_list::list_objects(&image[start..end], rows, start);
    settle(image, end, table)
}
