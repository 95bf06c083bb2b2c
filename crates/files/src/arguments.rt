// The words of the command line, by their number; the program's name is word 0.
ghost use Rattle.std.specs.Prelude.{◌≡◌, ◌≤◌, length, take};

use std::env::FillError;
use std::rt::Env;

// Puts word i at the start of the room and answers its length, or 0 where there is no such word or it does not fit.
pub fn arg<R: Env>(rt: &R, i: usize, room: &mut [u8]) -> usize
    ensures bound { result ≤ length room.new }
    ensures taken { result ≡ length (take result room.new) }
{
    match rt.arg(i, room) {
        Ok(length) => length,
        Err(_) => 0,
    }
}

fn has_arg<R: Env>(rt: &R, i: usize) -> bool {
    let mut room = [0u8; 1];
    match rt.arg(i, &mut room) {
        Err(FillError::NotPresent) => false,
        _ => true,
    }
}

// How many words there are, the program's name among them.
pub fn arg_count<R: Env>(rt: &R) -> usize {
    for i in 0..usize::MAX {
        if !has_arg(rt, i) {
            return i;
        }
    }
    usize::MAX
}
