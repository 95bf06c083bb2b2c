// length HEX: says what the length field at the head of some bytes tells.
ghost use Rattle.std.specs.Prelude.{◌<◌};

use files::Outside;
use lengths::{Field, FieldError};

// What is amiss with the field.
fn explain<R: Outside>(rt: &R, error: FieldError) {
    match error {
        FieldError::Other => words::say(rt, b"the first byte is none of 00 to 7F, 81 and 82"),
        FieldError::Cut => words::say(rt, b"the field is cut short, or there is no byte at all"),
        FieldError::Long => words::say(rt, b"a shorter form has room for this length"),
    }
}

fn print_length<R: Outside>(rt: &R, field: Field) -> u8
    ensures { result < 4 }
{
    let is_begun = files::write_all(rt, b"LENGTH ");
    let is_told = files::print_decimal(rt, field.length as u64);
    let is_ended = files::write_all(rt, &[b' ', b'0' + field.used % 10, b'\n']);
    words::written(rt, is_begun & is_told & is_ended)
}

fn print_refusal<R: Outside>(rt: &R, error: FieldError) -> u8
    ensures { result < 4 }
{
    explain(rt, error);
    let is_begun = files::write_all(rt, b"REFUSED ");
    let is_told = files::print_decimal(rt, error.number() as u64);
    let is_ended = files::write_all(rt, b" 0 00 0 0\n");
    if is_begun & is_told & is_ended {
        return words::REFUSED;
    }
    words::written(rt, false)
}

// The field at the head of the first bytes of a room.
fn tell<R: Outside>(rt: &R, room: &[u8], count: usize) -> u8
    ensures { result < 4 }
{
    if room.len() < count {
        return words::misused(rt, b"length takes at most 4096 hex digits");
    }
    match lengths_read::read_length(&room[..count]) {
        Ok(field) => print_length(rt, field),
        Err(error) => print_refusal(rt, error),
    }
}

fn tell_word<R: Outside>(rt: &R, word: &[u8]) -> u8
    ensures { result < 4 }
{
    let mut room = [0u8; 2048];
    if !words::put_hex_word(&mut room, word) {
        return words::misused(rt, b"length takes hex digits, two for a byte");
    }
    tell(rt, &room, word.len() / 2)
}

pub(crate) fn run<R: Outside>(rt: &R) -> u8
    ensures { result < 4 }
{
    let mut word = [0u8; 4096];
    let Ok(length) = rt.arg(2, &mut word) else {
        return words::misused(rt, b"length takes one word");
    };
    if files::arg_count(rt) != 3 {
        return words::misused(rt, b"length takes one word");
    }
    tell_word(rt, &word[..length])
}
