// Whether three lengths will do for three rows, and their sum fits.
// Any rows and lengths may be handed over. Which of all such lengths are taken is the caller's.
// The length 0 is that of an absent object: it will do where the row does not require it.
#![tactic(auto)]

ghost use Rattle.std.specs.Prelude.{◌≡◌, not};
ghost use Rattle.choosing.specs.Choices.{will_do, fits};

use choosing::Three;
use edition::Row;

fn may_lack(row: Row) -> bool
    ensures { result ≡ not row.required }
{
    !row.required
}

// Whether a length will do for a row's object.
fn will_do(row: Row, n: u8) -> bool
    ensures { result ≡ will_do row n }
{
    if n == 0 {
        return may_lack(row);
    }
    edition_lengths::permits(row.lengths, n)
}

pub fn fits_all(names: bool, a: Row, b: Row, c: Row, three: Three) -> bool
    ensures { result ≡ fits names a b c three }
{
    if !will_do(a, three.first) {
        return false;
    }
    if !will_do(b, three.second) {
        return false;
    }
    if !will_do(c, three.third) {
        return false;
    }
    choosing_sums::sum_fits(names, three)
}
