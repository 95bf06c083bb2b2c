// The ends of a card: which first and last bytes it may have, and how many spaces the filler in front of the last ones.
// Any bytes and sizes may be asked about.
// 'FF' is a last byte behind '82' alone.
#![tactic(auto)]

ghost use Rattle.std.specs.Prelude.{◌≡◌};
ghost use Rattle.card.specs.Rules.{first_allowed, last_allowed};
ghost use Rattle.card.specs.Layout.{spaces};

// Whether address 0 may hold this byte.
pub fn allows_first(first: u8) -> bool
    ensures { result ≡ first_allowed first }
{
    (first == 0x82) | (first == 0x92) | (first == 0xA2)
}

// Whether this may be the last byte, behind that first one.
pub fn allows_last(first: u8, last: u8) -> bool
    ensures { result ≡ last_allowed first last }
{
    (last == 0x00) | ((first == 0x82) & (last == 0xFF))
}

// How many spaces a filler has, where t is 255 less its start.
pub fn count_spaces(t: usize) -> usize
    ensures { result ≡ spaces t }
{
    if t < 2 {
        return 0;
    }
    if t <= 129 {
        return t - 2;
    }
    if t == 130 {
        return 127;
    }
    t - 3
}
