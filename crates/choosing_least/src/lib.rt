// The lengths of three objects that their rows permit and whose sum fits, of all such the ones that take the fewest bytes, or the most.
// Any three rows may be handed over. Values are the caller's; of an object that stands in no sum the other two rows permit nothing.
// Where no three lengths fit, each is 28, whose sum fits never: a caller that asks for the sum is refused.
#![tactic(auto)]

ghost use Rattle.std.specs.Prelude.{◌≡◌, ◌<◌};
ghost use Rattle.choosing.specs.Choices.{three_of, chosen};

use choosing::Three;
use choosing_weight::weight_of;
use edition::Row;

// Three lengths of at most 28 by their number.
fn three_of(code: usize) -> Three
    requires { code < 24389 }
    ensures { result ≡ three_of code }
{
    Three {
        first: (code / 841) as u8,
        second: (code / 29 % 29) as u8,
        third: (code % 29) as u8,
    }
}

// The lengths that fit and take the fewest bytes, or the most where they are to be long; of such the first by number.
pub fn choose(long: bool, names: bool, a: Row, b: Row, c: Row) -> Three
    ensures { result ≡ chosen long names a b c }
{
    let mut best: usize = 24388;
    let mut least = weight_of(long, names, a, b, c, three_of(best));
    for code in 0..24389 {
        let weight = weight_of(long, names, a, b, c, three_of(code));
        if weight < least {
            least = weight;
            best = code;
        }
    }
    three_of(best)
}
