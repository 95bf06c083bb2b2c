// The edition of a lent table and what is refused of it, in one answer; the two shipped tables are known by their bytes.
// Any bytes may be lent; reader and writer take the refusal as it is told here, and ask no more.
// A table that is not shipped is decoded and tested row by row: the answer is the same, only later.
#![tactic(auto)]

ghost use Rattle.std.specs.Prelude.{◌≡◌};
ghost use Rattle.edition.specs.Tables.{terminal, issue};
ghost use Rattle.ground.specs.Lists.{same_list};
ghost use Rattle.wire_tables.specs.Tables.{table_bytes};
ghost use Rattle.shipped_tables.specs.Lending.{lent_table};

use card::Refusal;
use edition::Edition;

#[derive(Clone, Copy)]
pub struct Lent {
    pub edition: Edition,
    pub refusal: Refusal,
}

fn is_terminal(table: &[u8]) -> bool
    ensures { result ≡ same_list table.now (table_bytes terminal) }
{
    ground_parts::is_same(
        table,
        b"\x01\x01\x1F\xFF\xFF\xFC\x01\x00\x00\x00\x00\x80\x00\x00\x00\x00\x00\x20\x01\x00\x00\x00\x1F\xC0\x01\x00\x00\x00\x00\x12\x00\x01\x00\x00\x00\x0E\x00\x01\x00\x00\xFF\xFC\x00\x01\x1F\xFF\xFF\xFE\x00\x01\x00\x00\xFF\xFE\x01\x01\x1F\xFF\xFF\xFC\x01\x04\x00\x00\x01\x00\x00\x01\x1F\xFF\xFF\xFC\x00\x01\x00\x00\x00\x0E\x01\x01\x00\x00\x00\xF0\x01\x01\x00\xFF\xFF\xFC\x00\x05\x00\x00\x00\x10\x01\x06\x00\x00\x00\x02\x01",
    )
}

fn is_issue(table: &[u8]) -> bool
    ensures { result ≡ same_list table.now (table_bytes issue) }
{
    ground_parts::is_same(
        table,
        b"\x01\x01\x1F\xFF\xFF\xFC\x01\x00\x00\x00\x00\x80\x01\x00\x00\x00\x00\x20\x01\x00\x00\x00\x1F\xC0\x01\x02\x00\x00\x00\x10\x01\x03\x00\x00\x00\x02\x00\x01\x00\x00\xFF\xFC\x01\x01\x1F\xFF\xFF\xFE\x00\x01\x00\x00\xFF\xFE\x01\x01\x1F\xFF\xFF\xFC\x01\x04\x00\x00\x01\x00\x00\x01\x1F\xFF\xFF\xFC\x00\x07\x00\x00\x00\x0E\x01\x01\x00\x00\x00\xF0\x01\x01\x00\x7F\xFF\xFC\x01\x05\x00\x00\x00\x10\x01\x06\x00\x00\x00\x02\x02",
    )
}

// The same as lent_edition, of any table.
fn decoded(table: &[u8]) -> Lent
    ensures { result ≡ lent_table table.now }
{
    let edition = wire_tables::edition_of(table);
    let refusal = card_editions::refuse_edition(edition);
    Lent { edition, refusal }
}

// The edition of a table, and its refusal; of another size than 103 bytes, an edition that is refused.
// By its number a table is one of the shipped tables at most, and only with that one it is compared.
pub fn lent_edition(table: &[u8]) -> Lent
    ensures { result ≡ lent_table table.now }
{
    let number = ground_parts::byte_at(table, 102);
    if number == 1 {
        if is_terminal(table) {
            return Lent {
                edition: Edition::TERMINAL,
                refusal: Refusal::NONE,
            };
        }
    }
    if number == 2 {
        if is_issue(table) {
            return Lent {
                edition: Edition::ISSUE,
                refusal: Refusal::NONE,
            };
        }
    }
    decoded(table)
}
