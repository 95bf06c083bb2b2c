// A set of lengths, kept in the bits of one number: whether a length is in it, its shortest and its longest.
// Any number may be asked about; whether it is the set of a well-formed row is the edition's.
// 0 is no length; the shortest of the empty set is 32, its longest 0.
#![tactic(auto)]

ghost use Rattle.std.specs.Prelude.{◌≡◌};
ghost use Rattle.edition.specs.Sets.{permitted, shortest_of, longest_of};

// Whether the length n is in the set; 0 is no length.
pub fn permits(lengths: u32, n: u8) -> bool
    ensures { result ≡ permitted lengths n }
{
    if n == 0 {
        return false;
    }
    if n >= 32 {
        return false;
    }
    (lengths >> n) % 2 == 1
}

// The shortest length of the set; 32 where there is none.
pub fn shortest(lengths: u32) -> u8
    ensures { result ≡ shortest_of lengths }
{
    u32::trailing_zeros(lengths) as u8
}

// The longest length of the set; 0 where there is none.
pub fn longest(lengths: u32) -> u8
    ensures { result ≡ longest_of lengths }
{
    let above = u32::leading_zeros(lengths);
    if above < 32 { (31 - above) as u8 } else { 0 }
}
