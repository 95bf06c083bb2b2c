// The lines of a table. Each function puts from `at` on and answers the place behind what it put.
ghost use Rattle.std.specs.Prelude.{◌≡◌, [], ◌∷◌, ◌++◌, ◌+◌, ◌*◌, ◌<◌, ◌≤◌, length};
ghost use Rattle.ground.specs.Rooms.{Put, decimal};
ghost use Rattle.table_text.specs.Texts.{spaced, front_text, kind_text, set_text, row_text, rows_text, head_text};

use crate::{lengths, vocabulary};
use edition::{Edition, Row};

const EDITION: usize = 27;

// Puts a blank and word i.
fn put_spaced(room: &mut [u8], at: usize, i: usize) -> usize
    requires { (i < 29) × (at + 17 ≤ length room.old) }
    ensures put { Put room.old at (spaced i) room.new result }
    ensures upper_bound { result ≤ at + 17 }
{
    let start = ground_room::put_byte(room, at, b' ');
    vocabulary::put_word(room, start, i)
}

// Puts tag and name of row k.
fn put_front(room: &mut [u8], at: usize, k: usize) -> usize
    requires { (k < 17) × (at + 19 ≤ length room.old) }
    ensures put { Put room.old at (front_text k) room.new result }
    ensures upper_bound { result ≤ at + 19 }
{
    let start = ground_digits::put_hex(room, at, edition_tags::tag_of(k));
    put_spaced(room, start, k)
}

// Puts whether a row is required, and its rule.
fn put_kind(room: &mut [u8], at: usize, row: Row) -> usize
    requires { at + 34 ≤ length room.old }
    ensures put { Put room.old at (kind_text row) room.new result }
    ensures upper_bound { result ≤ at + 34 }
{
    let rule = row.rule;
    let behind_presence = put_spaced(room, at, row_words::presence_word(row.required));
    put_spaced(room, behind_presence, row_words::rule_word(rule))
}

// Puts the lengths and the end of the line.
fn put_set(room: &mut [u8], at: usize, set: u32) -> usize
    requires { at + 130 ≤ length room.old }
    ensures put { Put room.old at (set_text set) room.new result }
    ensures upper_bound { result ≤ at + 130 }
{
    let start = ground_room::put_byte(room, at, b' ');
    let end = lengths::put_lengths(room, start, set);
    ground_room::put_byte(room, end, b'\n')
}

// Puts the line of row k.
fn put_row(room: &mut [u8], at: usize, k: usize, row: Row) -> usize
    requires { (k < 17) × (at + 183 ≤ length room.old) }
    ensures put { Put room.old at (row_text k row) room.new result }
    ensures upper_bound { result ≤ at + 183 }
{
    let behind_name = put_front(room, at, k);
    let behind_rule = put_kind(room, behind_name, row);
    put_set(room, behind_rule, row.lengths)
}

// Puts the lines of all rows.
pub(crate) fn put_rows(room: &mut [u8], at: usize, edition: Edition) -> usize
    requires { at + 17 * 183 ≤ length room.old }
    ensures put { Put room.old at (rows_text 0 edition.rows) room.new result }
    ensures upper_bound { result ≤ at + 17 * 183 }
{
    let mut place = at;
    for (k, row) in edition.rows.iter().enumerate() {
        place = put_row(room, place, k, *row);
    }
    place
}

// Puts the first line, with the number, at the start of the room.
pub(crate) fn put_head(room: &mut [u8], number: u8) -> usize
    requires { 21 ≤ length room.old }
    ensures put { Put room.old 0 (head_text number) room.new result }
    ensures upper_bound { result ≤ 21 }
{
    let behind_word = vocabulary::put_word(room, 0, EDITION);
    let start = ground_room::put_byte(room, behind_word, b' ');
    let end = ground_digits::put_decimal(room, start, number as usize);
    ground_room::put_byte(room, end, b'\n')
}
