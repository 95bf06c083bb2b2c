// Single letters of DIN 66003: which bytes have one, and the bytes that a letter has in UTF-8.
// Any byte may be lent. Whole texts are turned by `letters_spelled` and `letters_coded`.
// A letter of one byte is told by 0, which is no second byte of any.
#![tactic(auto)]

ghost use Rattle.std.specs.Prelude.{◌≡◌};
ghost use Rattle.letters.specs.Letters.{first_of, second_of, has_letter};

pub fn has_letter(b: u8) -> bool
    ensures { result ≡ has_letter b }
{
    (0x20 <= b) & (b <= 0x7E)
}

// The first byte of a letter that has two in UTF-8.
pub fn first_of(b: u8) -> u8
    ensures { result ≡ first_of b }
{
    if b == 0x40 { 0xC2 } else { 0xC3 }
}

// The second byte of a letter in UTF-8, and 0 where it has one.
pub fn second_of(b: u8) -> u8
    ensures { result ≡ second_of b }
{
    match b {
        0x40 => 0xA7,
        0x5B => 0x84,
        0x5C => 0x96,
        0x5D => 0x9C,
        0x7B => 0xA4,
        0x7C => 0xB6,
        0x7D => 0xBC,
        0x7E => 0x9F,
        _ => 0,
    }
}
