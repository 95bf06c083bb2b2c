// Steps as lines: an address in decimal, a blank, and a byte as two hex digits.
ghost use Rattle.std.specs.Prelude.{◌≤◌, ◌<◌, length, IfSome};

// The address with one more digit; 65535 where it would be more.
fn with_digit(address: u32, digit: u8) -> u32
    ensures { result < 65536 }
{
    let more = (address % 65536) * 10 + (digit % 10) as u32;
    if more > 65535 { 65535 } else { more }
}

// The number that some digits write.
fn address_of(digits: &[u8]) -> Option<u32> {
    let mut address: u32 = 0;
    for byte in digits {
        let b'0'..=b'9' = byte else {
            return None;
        };
        address = with_digit(address, *byte - b'0');
    }
    Some(address)
}

fn step_to(address: u32, byte: u8) -> u32 {
    (address % 65536) * 256 + byte as u32
}

// The step of a line, if it has one.
fn step_of(line: &[u8]) -> Option<u32> {
    let [digits @ .., b' ', high, low] = line else {
        return None;
    };
    if digits.is_empty() {
        return None;
    }
    let mut byte = [0u8; 1];
    if !words::put_hex_word(&mut byte, &[*high, *low]) {
        return None;
    }
    Some(step_to(address_of(digits)?, byte[0]))
}

// Puts a word at a place of the room, if there is one. Answers the place behind it.
fn put_word(room: &mut [u32], at: usize, word: u32) -> usize
    requires { at ≤ length room.old }
    ensures { result ≤ length room.new }
{
    if at >= room.len() {
        return at;
    }
    room[at] = word;
    at + 1
}

// Puts the step of each line into the room, as many as it holds. Answers how many, or nothing where a line has no step.
pub(crate) fn read_steps(text: &[u8], room: &mut [u32]) -> Option<usize>
    ensures { IfSome result (λ count. count ≤ length room.new) }
{
    let mut count = 0;
    for line in text.split_inclusive(|b| *b == b'\n') {
        let step = step_of(line.strip_suffix(b"\n").unwrap_or(line))?;
        count = put_word(room, count, step);
    }
    Some(count)
}
