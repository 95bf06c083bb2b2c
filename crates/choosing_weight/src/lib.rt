// How much three lengths weigh: the bytes that they take, or the other way round where they are to be long; what does not fit weighs most.
// Any rows and lengths may be handed over. The least weight is looked for by the caller.
// An absent object takes no bytes, any other two more than its length.
#![tactic(auto)]

ghost use Rattle.std.specs.Prelude.{◌≡◌, ◌≤◌};
ghost use Rattle.choosing.specs.Choices.{size_of, size_in, weight};

use choosing::Three;
use edition::Row;

// How many bytes an object takes.
fn size_of(n: u8) -> u16
    ensures value { result ≡ size_of n }
    ensures upper_bound { result ≤ 257 }
{
    if n == 0 { 0 } else { n as u16 + 2 }
}

fn size_in(three: Three) -> u16
    ensures value { result ≡ size_in three }
    ensures upper_bound { result ≤ 771 }
{
    size_of(three.first) + size_of(three.second) + size_of(three.third)
}

pub fn weight_of(long: bool, names: bool, a: Row, b: Row, c: Row, three: Three) -> u16
    ensures { result ≡ weight long names a b c three }
{
    if !choosing_fits::fits_all(names, a, b, c, three) {
        return 1000;
    }
    let size = size_in(three);
    if long { 999 - size } else { size }
}
