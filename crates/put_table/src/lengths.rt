// The permitted lengths as text.
ghost use Rattle.std.specs.Prelude.{◌≡◌, ◌∷◌, ◌+◌, ◌*◌, ◌<◌, ◌≤◌, length};
ghost use Rattle.ground.specs.Rooms.{Put, decimal};
ghost use Rattle.table_text.specs.Texts.{has, has_before, first_part, length_part, length_parts, lengths_text};

use crate::vocabulary;

const NONE: usize = 28;

// Whether the length n is in the set, 0 too.
fn has(set: u32, n: usize) -> bool
    ensures { result ≡ has set n }
{
    if n >= 32 {
        return false;
    }
    (set >> n) % 2 == 1
}

fn has_before(set: u32, n: usize) -> bool
    ensures { result ≡ has_before set n }
{
    if n == 0 {
        return false;
    }
    has(set, n - 1)
}

// Puts a sign and a number.
fn put_signed(room: &mut [u8], at: usize, sign: u8, n: usize) -> usize
    requires { at + 4 ≤ length room.old }
    ensures put { Put room.old at (sign ∷ decimal n) room.new result }
    ensures upper_bound { result ≤ at + 4 }
{
    let start = ground_room::put_byte(room, at, sign);
    ground_digits::put_decimal(room, start, n)
}

// Puts the first length of a run: behind a comma, unless nothing stands before it.
fn put_first(room: &mut [u8], at: usize, set: u32, n: usize) -> usize
    requires { (n < 32) × (at + 4 ≤ length room.old) }
    ensures put { Put room.old at (first_part set n) room.new result }
    ensures upper_bound { result ≤ at + 4 }
{
    if set % (1 << n) == 0 {
        return ground_digits::put_decimal(room, at, n);
    }
    put_signed(room, at, b',', n)
}

// Puts what the length n adds to the text of a set.
fn put_length(room: &mut [u8], at: usize, set: u32, n: usize) -> usize
    requires { (n < 32) × (at + 4 ≤ length room.old) }
    ensures put { Put room.old at (length_part set n) room.new result }
    ensures upper_bound { result ≤ at + 4 }
{
    if !has(set, n) {
        return at;
    }
    if !has_before(set, n) {
        return put_first(room, at, set, n);
    }
    if has(set, n + 1) {
        return at;
    }
    put_signed(room, at, b'-', n)
}

fn put_listed(room: &mut [u8], at: usize, set: u32) -> usize
    requires { at + 128 ≤ length room.old }
    ensures put { Put room.old at (length_parts set 0 32) room.new result }
    ensures upper_bound { result ≤ at + 128 }
{
    let mut place = at;
    for n in 0..32 {
        place = put_length(room, place, set, n);
    }
    place
}

// Puts the text of a set.
pub(crate) fn put_lengths(room: &mut [u8], at: usize, set: u32) -> usize
    requires { at + 128 ≤ length room.old }
    ensures put { Put room.old at (lengths_text set) room.new result }
    ensures upper_bound { result ≤ at + 128 }
{
    if set == 0 {
        return vocabulary::put_word(room, at, NONE);
    }
    put_listed(room, at, set)
}
