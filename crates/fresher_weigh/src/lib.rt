// Two cards weighed against each other: the one that is valid later, and by how many months.
// Any two cards may be lent, also such as no image has. Where they come from is the caller's.
// With a refusal the card named is the first, the distance 0 and the part empty.
#![tactic(auto)]

ghost use Rattle.std.specs.Prelude.{◌≡◌};
ghost use Rattle.card.specs.Refusals.{refuse};
ghost use Rattle.fresher.specs.Comparing.{unweighed, later, weighed};

use card::Refusal;
use fresher::{Card, Fresher};
use fresher_months::apart;
use ground_pick::pick;

fn refuse(refusal: Refusal) -> Fresher
    ensures { result ≡ unweighed refusal }
{
    Fresher {
        refusal,
        second: false,
        months: 0,
        start: 0,
        length: 0,
    }
}

// 24: a validity is missing, or is none by the rule.
fn undated() -> Fresher
    ensures { result ≡ unweighed (refuse 24 0 0) }
{
    refuse(Refusal::new(24, 0, 0))
}

// The card that is valid later; the first where both are valid as long.
fn compare_dates(a: Card, b: Card, from: u16, to: u16) -> Fresher
    requires { (a.months ≡ Some from) × (b.months ≡ Some to) }
    ensures { result ≡ later a b }
{
    let months = apart(from, to);
    let second = from < to;
    Fresher {
        refusal: Refusal::none(),
        second,
        months,
        start: pick(second, b.start, a.start),
        length: pick(second, b.length, a.length),
    }
}

// The refusal of the first card, of the second, 24; else the later one.
pub fn weigh(expiry: bool, a: Card, b: Card) -> Fresher
    ensures { result ≡ weighed expiry a b }
{
    let first = a.refusal;
    if first.number != 0 {
        return refuse(first);
    }
    let other = b.refusal;
    if other.number != 0 {
        return refuse(other);
    }
    if !expiry {
        return undated();
    }
    let from = match a.months {
        Some(months) => months,
        None => return undated(),
    };
    let to = match b.months {
        Some(months) => months,
        None => return undated(),
    };
    compare_dates(a, b, from, to)
}
