// The byte of DIN 66003 for a letter in UTF-8.
// Any bytes may be lent. Where a letter begins in a text is told by `letters_coded`.
// No letter has the byte 0, so that 0 tells that there is none.
#![tactic(auto)]

ghost use Rattle.std.specs.Prelude.{◌≡◌};
ghost use Rattle.letters.specs.Turning.{is_plain, behind_c3, pair_of, byte_for};

// Whether a byte of a text is a letter by itself.
fn is_plain(x: u8) -> bool
    ensures { result ≡ is_plain x }
{
    letter_bytes::has_letter(x) & (letter_bytes::second_of(x) == 0)
}

// The byte of a letter that begins with 'C3'; 0 where there is none.
fn behind_c3(x: u8) -> u8
    ensures { result ≡ behind_c3 x }
{
    match x {
        0x84 => 0x5B,
        0x96 => 0x5C,
        0x9C => 0x5D,
        0xA4 => 0x7B,
        0xB6 => 0x7C,
        0xBC => 0x7D,
        0x9F => 0x7E,
        _ => 0,
    }
}

// The byte whose letter has these two; 0 where there is none.
fn pair_of(first: u8, x: u8) -> u8
    ensures { result ≡ pair_of first x }
{
    if first == 0xC3 {
        behind_c3(x)
    } else if x == 0xA7 {
        0x40
    } else {
        0
    }
}

// The byte for a letter that ends with x; 0 where there is none. `first` is the letter's first byte where it has two, and else 0.
pub fn byte_for(first: u8, x: u8) -> u8
    ensures { result ≡ byte_for first x }
{
    if first != 0 {
        pair_of(first, x)
    } else if is_plain(x) {
        x
    } else {
        0
    }
}
