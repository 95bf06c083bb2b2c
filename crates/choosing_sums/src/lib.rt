// Whether three lengths keep the sum of document 01: that of the names, or that of the town.
// Any three lengths may be handed over. Whether a row permits a length is the caller's.
// The sum is asked of the lengths of a card on which no other object stands, by `card_sums::check_sums`.
#![tactic(auto)]

ghost use Rattle.std.specs.Prelude.{◌≡◌};
ghost use Rattle.choosing.specs.Choices.{placed, sum_holds};

use choosing::Three;

// The lengths of the sixteen objects where none but these three are there: the names, or those of the town.
fn place(names: bool, three: Three) -> [u8; 16]
    ensures { result ≡ placed names three }
{
    let a = three.first;
    let b = three.second;
    let c = three.third;
    if names {
        [0, 0, 0, 0, 0, 0, a, b, c, 0, 0, 0, 0, 0, 0, 0]
    } else {
        [0, 0, 0, 0, 0, 0, 0, 0, 0, 0, 0, 0, a, b, c, 0]
    }
}

pub fn sum_fits(names: bool, three: Three) -> bool
    ensures { result ≡ sum_holds names three }
{
    let starts = [0u8; 16];
    let refusal = card_sums::check_sums(starts, place(names, three));
    refusal.number == 0
}
