// Which rows stand in a sum, the first row of it, the row's place in it, and of three lengths the one at a place.
// Any row number and any place may be handed over. The lengths themselves are the caller's.
// A row that stands in no sum is its own first row, and has the third place.
#![tactic(auto)]

ghost use Rattle.std.specs.Prelude.{◌≡◌, ◌≤◌};
ghost use Rattle.example.specs.Cards.{grouped, start_of, place_of, by_place};

use choosing::Three;

// Whether row k stands in a sum: the names, or the town.
pub fn is_grouped(k: usize) -> bool
    ensures { result ≡ grouped k }
{
    (6 <= k) & (k <= 8) | (12 <= k) & (k <= 14)
}

// The first row of the sum that row k stands in, or row k itself.
pub fn start_of(k: usize) -> usize
    ensures value { result ≡ start_of k }
    ensures upper_bound { result ≤ k }
{
    if is_grouped(k) { k - k % 3 } else { k }
}

// The place of row k in its sum, from 0 on.
pub fn place_of(k: usize) -> usize
    ensures { result ≡ place_of k }
{
    if is_grouped(k) { k % 3 } else { 2 }
}

// Of three lengths the one at a place.
pub fn by_place(place: usize, three: Three) -> u8
    ensures { result ≡ by_place place three }
{
    if place == 0 {
        return three.first;
    }
    if place == 1 {
        three.second
    } else {
        three.third
    }
}
