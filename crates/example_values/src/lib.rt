// The object of one row on the card: so many bytes of the inner rule, and where a value is to show the clause, one that the outer rule does not take.
// Any two rows, any clause and any length may be handed over. Which length the row permits is the caller's.
// A length above 28 is cut to 28, since an object has no more bytes.
#![tactic(auto)]

ghost use Rattle.std.specs.Prelude.{◌≡◌, ◌≤◌};
ghost use Rattle.card.specs.Content.{object_of};
ghost use Rattle.example.specs.Cards.{at_most, sample_for, spelled, value_for};

use card::Object;
use edition::Row;
use example::PLAIN;
use nesting::Sample;

// An object has at most 28 bytes.
fn at_most(n: u8) -> u8
    ensures value { result ≡ at_most n }
    ensures upper_bound { result ≤ 28 }
{
    if n > 28 { 28 } else { n }
}

fn sample_for(part: u8, inner: Row, outer: Row) -> Sample
    ensures { result ≡ sample_for part inner outer }
{
    if part == 2 {
        return nesting_witness::witness(inner, outer);
    }
    nesting_witness::witness(inner, PLAIN)
}

// The object of so many bytes, the first and then the others.
fn object_of(n: u8, first: u8, rest: u8) -> Object
    requires { n ≤ 28 }
    ensures { result ≡ object_of (spelled n first rest) }
{
    if n == 0 {
        return Object::ABSENT;
    }
    let mut bytes = [0u8; 28];
    ground_room::put_byte(&mut bytes, 0, first);
    ground_room::fill(&mut bytes, 1, n as usize - 1, rest);
    Object { length: n, bytes }
}

pub fn object_for(part: u8, inner: Row, outer: Row, n: u8) -> Object
    ensures { result ≡ object_of (value_for part inner outer n) }
{
    let sample = sample_for(part, inner, outer);
    let length = at_most(n);
    object_of(length, sample.first, sample.rest)
}
