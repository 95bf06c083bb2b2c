// A byte of a line as the letter that it prints.
use files::Outside;

// The second byte in UTF-8 of a letter of DIN 66003, whose first is 'C3'; none for another byte.
fn letter_of(b: u8) -> Option<u8> {
    match b {
        0x5B => Some(0x84),
        0x5C => Some(0x96),
        0x5D => Some(0x9C),
        0x7B => Some(0xA4),
        0x7C => Some(0xB6),
        0x7D => Some(0xBC),
        0x7E => Some(0x9F),
        _ => None,
    }
}

// Writes a byte of a line as the letter that it prints.
pub(crate) fn show<R: Outside>(rt: &R, b: u8) {
    match letter_of(b) {
        Some(letter) => files::write_all(rt, &[0xC3, letter]),
        None => files::write_all(rt, &[b]),
    };
}
