// A word of hex digits.
ghost use Rattle.std.specs.Prelude.{◌<◌, IfSome};

// What a hex digit stands for, if it is one.
fn hex_value(digit: u8) -> Option<u8>
    ensures { IfSome result (λ n. n < 16) }
{
    match digit {
        b'0'..=b'9' => Some(digit - b'0'),
        b'A'..=b'F' => Some(digit - b'A' + 10),
        b'a'..=b'f' => Some(digit - b'a' + 10),
        _ => None,
    }
}

// The byte that two hex digits write, if they are two.
fn byte_of(pair: &[u8]) -> Option<u8> {
    match pair {
        [high, low] => Some(hex_value(*high)? * 16 + hex_value(*low)?),
        _ => None,
    }
}

// Puts the bytes that a word of hex digits stands for at the start of the room, and answers whether it is such a word.
pub fn put_hex_word(room: &mut [u8], word: &[u8]) -> bool {
    for (i, pair) in word.chunks(2).enumerate() {
        let Some(byte) = byte_of(pair) else {
            return false;
        };
        ground_room::put_byte(room, i, byte);
    }
    true
}
