// How many bytes the tag and the length of a filler take.
// Any number of spaces may be asked for; which one a card has is the caller's to say.
// The length stands in its shortest form, so the answer is 2, 3 or 4.
#![tactic(auto)]

ghost use Rattle.std.specs.Prelude.{◌≡◌, ◌+◌, length};
ghost use Rattle.lengths.specs.Lengths.{length_field};

// How many bytes the tag and the length of a filler of so many spaces take.
pub fn lead_size(count: usize) -> usize
    ensures { result ≡ 1 + length (length_field count) }
{
    if count <= 127 {
        return 2;
    }
    if count <= 255 {
        return 3;
    }
    4
}
