// What is refused of a record before the first byte is written, in the document's order, on the record's lent bytes.
// Any edition, table, record and buffer size may be asked about. Writing is the writer's.
// 11 is told before 4 here and behind the objects when reading: a record has no places, so its place is 0.
#![tactic(auto)]

mod rows;

ghost use Rattle.std.specs.Prelude.{◌≡◌, ◌≤◌, length};
ghost use Rattle.card.specs.Content.{content_of};
ghost use Rattle.card.specs.Layout.{objects_of};
ghost use Rattle.edition.specs.declared.Formed.TheVariants.{Well};
ghost use Rattle.edition.specs.Rows.{formed_of};
ghost use Rattle.card.specs.Refusals.{bad_row};
ghost use Rattle.card.specs.Refusing.{ends_refusal, number_refusal, content_refusal, edition_refusal, write_refusal};
ghost use Rattle.wire_tables.specs.Tables.{lent_edition};
ghost use Rattle.wire_records.specs.Records.{lent_record};
ghost use Rattle.checks.specs.Lending.{lent_refusal};

use card::{Record, Refusal};
use edition::Edition;

// 3: address 0 and the last byte.
fn check_ends(first: u8, last: u8) -> Refusal
    ensures { result ≡ ends_refusal first last }
{
    if card_ends::allows_first(first) & card_ends::allows_last(first, last) {
        Refusal::NONE
    } else {
        Refusal::new(3, 0, 0)
    }
}

// 22: the numbers of edition and record.
fn check_numbers(edition: u8, number: u8) -> Refusal
    ensures { result ≡ number_refusal edition number }
{
    if number == edition {
        Refusal::NONE
    } else {
        Refusal::new(22, 0, 0)
    }
}

// 3, row by row 6, 7, 9 and 10, then 11, then 4.
fn refuse_content(edition: Edition, bytes: &[u8]) -> Refusal
    requires { (length bytes.now ≡ 479) × (formed_of edition ≡ Well) }
    ensures { result ≡ content_refusal edition (content_of (lent_record bytes.now)) }
{
    let ends = check_ends(bytes[0], bytes[13]);
    if ends.number != 0 {
        return ends;
    }
    let kinds = rules_kinds::kinds();
    let rows = rows::check_rows(edition, bytes, &kinds);
    if rows.number != 0 {
        return rows;
    }
    object_sizes::check_sizes(object_sizes::lengths_of(bytes))
}

// The first refusal of 479 bytes but for their number, under an edition whose refusal is known.
fn content_under(table: Refusal, edition: Edition, bytes: &[u8]) -> Refusal
    requires { (table ≡ bad_row (formed_of edition)) × (length bytes.now ≡ 479) }
    ensures { result ≡ edition_refusal edition (content_of (lent_record bytes.now)) }
{
    if table.number != 0 {
        return table;
    }
    refuse_content(edition, bytes)
}

// The first refusal of 479 bytes, in a buffer of `size` bytes, under an edition whose refusal is known.
fn check_under(known: Refusal, edition: Edition, bytes: &[u8], size: usize) -> Refusal
    requires { (known ≡ bad_row (formed_of edition)) × (length bytes.now ≡ 479) }
    ensures { result ≡ write_refusal edition (lent_record bytes.now).number (content_of (lent_record bytes.now)) size }
{
    if size != 256 {
        return Refusal::new(20, 0, 0);
    }
    if known.number != 0 {
        return known;
    }
    let numbers = check_numbers(edition.number, bytes[478]);
    if numbers.number != 0 {
        return numbers;
    }
    refuse_content(edition, bytes)
}

// The first refusal of a record but for its number: what writing would tell of it with the edition's number put on.
pub fn check_content(edition: Edition, content: Record) -> Refusal
    ensures { result ≡ edition_refusal edition (content_of content) }
{
    let mut bytes = [0u8; 479];
    wire_records::write_record(content, &mut bytes);
    content_under(card_editions::refuse_edition(edition), edition, &bytes)
}

// The first refusal of a record, in a buffer of `size` bytes.
pub fn check(edition: Edition, content: Record, size: usize) -> Refusal
    ensures { result ≡ write_refusal edition content.number (content_of content) size }
{
    let mut bytes = [0u8; 479];
    wire_records::write_record(content, &mut bytes);
    check_under(
        card_editions::refuse_edition(edition),
        edition,
        &bytes,
        size,
    )
}

// The same of a lent record, under the edition of a lent table; 20 too for a record that has not 479 bytes.
pub fn check_lent(table: &[u8], bytes: &[u8], size: usize) -> Refusal
    ensures { result ≡ lent_refusal (lent_edition table.now) bytes.now size }
{
    if bytes.len() != 479 {
        return Refusal::new(20, 0, 0);
    }
    let lent = shipped_tables::lent_edition(table);
    check_under(lent.refusal, lent.edition, bytes, size)
}

// How many bytes all objects of a record take.
pub fn objects_size(content: Record) -> usize
    ensures upper_bound { result ≤ 4112 }
    ensures value { result ≡ length (objects_of (content_of content)) }
{
    let mut bytes = [0u8; 479];
    wire_records::write_record(content, &mut bytes);
    object_sizes::size_of(object_sizes::lengths_of(&bytes))
}
