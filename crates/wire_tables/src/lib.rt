// An edition as a table of 103 bytes, and back.
// What a table says is taken as it stands: whether an edition is well formed, others ask.
// Of bytes of another size, or with a byte outside the format, comes an edition that no image passes; a room of another size is left as it is.
#![tactic(auto)]

ghost use Rattle.std.specs.Prelude.{◌≡◌, cond, ◌&&◌, leb, length, ◌+◌, ◌≤◌};
ghost use Rattle.ground.specs.Pieces.{four_bytes, joined};
ghost use Rattle.ground.specs.Rooms.{Put};
ghost use Rattle.wire_tables.specs.Tables.{edition_from, lent_edition, row_bytes, table_bytes, table_room};

use edition::{Edition, Row};
use nesting_rules::{number_of, rule_of};

fn four_bytes(a: u8, b: u8, c: u8, d: u8) -> u32
    ensures { result ≡ four_bytes a b c d }
{
    ((a as u32 * 256 + b as u32) * 256 + c as u32) * 256 + d as u32
}

// The set of a row; empty where one of the row's first two bytes is no number of the format.
fn lengths_of(required: u8, rule: u8, lengths: u32) -> u32
    ensures { result ≡ cond (leb required 1 && leb rule 7) lengths 0 }
{
    if (required <= 1) & (rule <= 7) {
        lengths
    } else {
        0
    }
}

fn rows_of(table: &[u8]) -> [Row; 17]
    requires { length table.now ≡ 103 }
    ensures { result ≡ (edition_from table.now).rows }
{
    let mut rows = [Row::BLANK; 17];
    for (k, row) in rows.iter_mut().enumerate() {
        let at = k * 6;
        let required = table[at];
        let rule = table[at + 1];
        let lengths = four_bytes(table[at + 2], table[at + 3], table[at + 4], table[at + 5]);
        *row = Row {
            required: required == 1,
            rule: rule_of(rule),
            lengths: lengths_of(required, rule, lengths),
        };
    }
    rows
}

// The edition of a table; of another size, one that is not well formed.
pub fn edition_of(table: &[u8]) -> Edition
    ensures { result ≡ lent_edition table.now }
{
    if table.len() != 103 {
        return Edition {
            rows: [Row::BLANK; 17],
            number: 0,
        };
    }
    Edition {
        rows: rows_of(table),
        number: table[102],
    }
}

fn put_row(room: &mut [u8], at: usize, row: Row) -> usize
    requires { at + 6 ≤ length room.old }
    ensures { Put room.old at (row_bytes row) room.new result }
{
    let rule = row.rule;
    let lengths = row.lengths;
    let first = (lengths >> 24) as u8;
    let second = ((lengths >> 16) % 256) as u8;
    let third = ((lengths >> 8) % 256) as u8;
    let fourth = (lengths % 256) as u8;
    ground_room::put(
        room,
        at,
        &[
            row.required as u8,
            number_of(rule),
            first,
            second,
            third,
            fourth,
        ],
    )
}

// Puts the rows: 102 bytes.
fn put_rows(room: &mut [u8], edition: Edition) -> usize
    requires { 102 ≤ length room.old }
    ensures put { Put room.old 0 (joined row_bytes edition.rows) room.new result }
    ensures value { result ≡ 102 }
{
    let mut place: usize = 0;
    for row in edition.rows.iter() {
        place = put_row(room, place, *row);
    }
    place
}

// Fills a room of 103 bytes with the table of an edition; a room of another size is left as it is.
pub fn write_table(edition: Edition, room: &mut [u8])
    ensures { room.new ≡ table_room edition room.old }
{
    if room.len() != 103 {
        return;
    }
    let place = put_rows(room, edition);
    ground_room::put_byte(room, place, edition.number);
}
