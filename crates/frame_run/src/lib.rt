// How many bytes at the head of a part are one byte.
// Any part and any byte may be lent; which byte it should be is the caller's.
// A part of that byte alone is looked at many bytes together, and only where another stands byte by byte.
#![tactic(auto)]

ghost use Rattle.std.specs.Prelude.{◌≡◌, eqb, length, replicate};
ghost use Rattle.ground.specs.Lists.{agree};

// Whether all bytes of a part are b: with no way out of the loop it takes many bytes at a time.
fn is_run(part: &[u8], b: u8) -> bool
    ensures { result ≡ eqb (agree (replicate (length part.now) b) part.now) (length part.now) }
{
    let mut difference = 0u8;
    for x in part {
        difference |= *x ^ b;
    }
    difference == 0
}

// How many bytes at the head of a part are b.
pub fn count_run(part: &[u8], b: u8) -> usize
    ensures { result ≡ agree (replicate (length part.now) b) part.now }
{
    if is_run(part, b) {
        return part.len();
    }
    part.iter().take_while(|x| **x == b).count()
}
