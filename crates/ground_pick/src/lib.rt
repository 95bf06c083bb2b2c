// One of two values by a test, of any type that is copied.
// Any two values may be handed over; both are made before one is taken.
// A function with many tests then has one way through it, and one proof of its answer.
#![tactic(auto)]

ghost use Rattle.std.specs.Prelude.{◌≡◌, cond};

// The first value where the test holds, and else the second.
pub fn pick<T: Copy>(test: bool, yes: T, no: T) -> T
    ensures { result ≡ cond test yes no }
{
    if test { yes } else { no }
}
