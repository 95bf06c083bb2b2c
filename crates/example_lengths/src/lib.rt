// The length of one row's object on the card, chosen together with those that stand in a sum with it.
// Any rows, any row number and any number of long rows may be handed over. The value of that length is the caller's.
// Past the last row the answer is that of a row that permits no length.
#![tactic(auto)]

ghost use Rattle.std.specs.Prelude.{◌≡◌, get_or};
ghost use Rattle.edition.specs.Rows.{no_row};
ghost use Rattle.example.specs.Cards.{three_at, length_at};

use choosing::Three;
use edition::Row;
use example::PLAIN;
use example_sums::{by_place, is_grouped, place_of, start_of};

// Row k; past the last a row that permits no length.
fn row_at(rows: [Row; 17], k: usize) -> Row
    ensures { result ≡ get_or rows k no_row }
{
    if k < 17 {
        let row = rows[k];
        return row;
    }
    Row::BLANK
}

// The lengths of the three objects of a sum; of a row that stands in none two are absent.
fn three_at(long: bool, rows: [Row; 17], k: usize) -> Three
    ensures { result ≡ three_at long rows k }
{
    if !is_grouped(k) {
        return choosing_least::choose(long, false, PLAIN, PLAIN, row_at(rows, k));
    }
    let at = start_of(k);
    let a = rows[at];
    let b = rows[at + 1];
    let c = rows[at + 2];
    choosing_least::choose(long, k < 9, a, b, c)
}

// The length of row k's object: of the first `long` rows as many bytes as can be, else as few.
pub fn length_at(rows: [Row; 17], long: usize, k: usize) -> u8
    ensures { result ≡ length_at rows long k }
{
    let three = three_at(start_of(k) < long, rows, k);
    by_place(place_of(k), three)
}
