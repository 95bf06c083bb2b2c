// The number of the part behind the template in which a byte lies.
// Any size and place may be given; whether the byte there is wrong is the caller's to say.
// A part that no card has is told as 0, and a place behind it as 17.
#![tactic(auto)]

ghost use Rattle.std.specs.Prelude.{◌≡◌, ◌-◌, ◌≤◌};
ghost use Rattle.card.specs.Frame.{tail_part};
ghost use Rattle.frame.specs.Checks.{part_in};

// The same as number_tail, of a part that a card may have.
fn number_part(size: usize, at: usize) -> u8
    requires { (3 ≤ size) × (size ≤ 256) }
    ensures { result ≡ tail_part (size - 1) at }
{
    let spaces = card_ends::count_spaces(size - 1);
    let start = frame_lead::lead_size(spaces);
    if at == 0 {
        return 14;
    }
    if at < start {
        return 15;
    }
    if at < start + spaces {
        return 16;
    }
    17
}

// 14 to 17: what the byte is that stands so many bytes behind the start of a part of this size; 0 for a part that no card has.
pub fn number_tail(size: usize, at: usize) -> u8
    ensures { result ≡ part_in size at }
{
    if size < 3 {
        return 0;
    }
    if size > 256 {
        return 0;
    }
    number_part(size, at)
}
