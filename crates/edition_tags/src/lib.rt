// The tag of each row.
// Any row may be asked about.
// Past the last row the tag is 0, which no object has.
#![tactic(auto)]

ghost use Rattle.std.specs.Prelude.{◌≡◌};
ghost use Rattle.edition.specs.Rows.{tag_of};

// The tag of a row, counted from 0 in card order; 0 past the last.
pub fn tag_of(row: usize) -> u8
    ensures { result ≡ tag_of row }
{
    match row {
        0 => 0x80,
        1 => 0x81,
        2 => 0x8F,
        3 => 0x82,
        4 => 0x83,
        5 => 0x90,
        6 => 0x84,
        7 => 0x85,
        8 => 0x86,
        9 => 0x87,
        10 => 0x88,
        11 => 0x89,
        12 => 0x8A,
        13 => 0x8B,
        14 => 0x8C,
        15 => 0x8D,
        16 => 0x8E,
        _ => 0,
    }
}
