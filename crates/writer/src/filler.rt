// The filler and the last bytes.
ghost use Rattle.std.specs.Prelude.{◌≡◌, ◌-◌, ◌≤◌, length};
ghost use Rattle.card.specs.Layout.{filler};

use crate::fields::write_length;

// Fills the whole of `part`, the buffer from the template's end on.
pub(crate) fn write_filler(part: &mut [u8], last: u8)
    requires { (3 ≤ length part.old) × (length part.old ≤ 256) }
    ensures { part.new ≡ filler (length part.old - 1) last }
{
    let size = part.len();
    let t = size - 1;
    let count = card_ends::count_spaces(t);
    part[0] = 0xC0;
    let start = write_length(part, 1, count);
    let end = ground_room::fill(part, start, count, 0x20);
    ground_room::fill(part, end, size - end, last);
}
