// How far the bytes behind the template are as they must be: the filler, then the last byte or bytes.
// Any bytes may be lent; what a wrong one is refused with is the caller's.
// Byte 255 is held to be right: the byte before it is compared with it where the filler is followed by two.
#![tactic(auto)]

ghost use Rattle.std.specs.Prelude.{◌≡◌, ◌∷◌, ◌≤◌, length};
ghost use Rattle.ground.specs.Lists.{agree};
ghost use Rattle.lengths.specs.Lengths.{length_field};
ghost use Rattle.frame.specs.Checks.{same_tail, same_in};

// How many bytes of the tag and the length of a filler of so many spaces a part begins with.
fn lead_same(part: &[u8], count: usize) -> usize
    requires { (3 ≤ length part.now) × (count ≤ 255) }
    ensures { result ≡ agree (0xC0 ∷ length_field count) part.now }
{
    let n = count as u8;
    if count <= 127 {
        ground_parts::count_same(part, &[0xC0, n])
    } else {
        ground_parts::count_same(part, &[0xC0, 0x81, n])
    }
}

// The same as count_tail, of a part that a card may have.
fn count_right(part: &[u8]) -> usize
    requires { (3 ≤ length part.now) × (length part.now ≤ 256) }
    ensures { result ≡ same_tail part.now }
{
    let size = part.len();
    let spaces = card_ends::count_spaces(size - 1);
    let start = frame_lead::lead_size(spaces);
    let lead = lead_same(part, spaces);
    if lead < start {
        return lead;
    }
    let stop = start + spaces;
    let run = frame_run::count_run(&part[start..stop], 0x20);
    if run < spaces {
        return start + run;
    }
    if part[stop] != part[size - 1] {
        return stop;
    }
    size
}

// How many bytes of the part that begins behind the template are as they must be; 0 for a part that no card has.
pub fn count_tail(part: &[u8]) -> usize
    ensures { result ≡ same_in part.now }
{
    if part.len() < 3 {
        return 0;
    }
    if part.len() > 256 {
        return 0;
    }
    count_right(part)
}
