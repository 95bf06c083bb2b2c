// What each row asks of its object, of which 29 bytes are lent: a length, and 28 bytes.
ghost use Rattle.std.specs.Prelude.{◌≡◌, ◌<◌, ◌^◌, length};
ghost use Rattle.edition.specs.declared.Formed.TheVariants.{Well};
ghost use Rattle.edition.specs.Rows.{formed_of};
ghost use Rattle.rules.specs.Values.{judged};
ghost use Rattle.rules.specs.Kinds.{kind_table};
ghost use Rattle.card.specs.Content.{value_of, content_of};
ghost use Rattle.card.specs.Rules.{of_verdict, fault, object_rows};
ghost use Rattle.card.specs.Refusing.{row_refusal, rows_refusal};
ghost use Rattle.card.specs.Rules.{entry_of};
ghost use Rattle.wire_records.specs.Records.{object_from, lent_record};

use card::Refusal;
use edition::{Edition, Row};
use rules::Fault;

// 9 and 10: what the row's rule says of a value.
fn check_value(row: Row, tag: u8, value: &[u8], kinds: &[u8]) -> Refusal
    requires { kinds.now ≡ kind_table }
    ensures { result ≡ row_refusal (entry_of tag row) (of_verdict (judged row.rule value.now)) }
{
    let rule = row.rule;
    match rules_kinds::judge_by(kinds, rule, value) {
        Ok(()) => Refusal::NONE,
        Err(Fault::Outside(index)) => Refusal::new(9, index, tag),
        Err(Fault::Breaks) => Refusal::new(10, 0, tag),
    }
}

// 6, 7, 9, 10: what a row says of its object.
fn check_row(row: Row, tag: u8, item: &[u8], kinds: &[u8]) -> Refusal
    requires { (length item.now ≡ 29) × (row.lengths < 2 ^ 29) × (kinds.now ≡ kind_table) }
    ensures { result ≡ row_refusal (entry_of tag row) (fault row (value_of (object_from item.now))) }
{
    let n = item[0];
    if n == 0 {
        return if row.required {
            Refusal::new(6, 0, tag)
        } else {
            Refusal::NONE
        };
    }
    let lengths = row.lengths;
    if edition_lengths::permits(lengths, n) {
        let end = n as usize + 1;
        return check_value(row, tag, &item[1..end], kinds);
    }
    Refusal::of_length(0, tag, lengths)
}

// The first refusal of the sixteen rows, in card order.
pub(crate) fn check_rows(edition: Edition, bytes: &[u8], kinds: &[u8]) -> Refusal
    requires { (length bytes.now ≡ 479) × (formed_of edition ≡ Well) × (kinds.now ≡ kind_table) }
    ensures { result ≡ rows_refusal (object_rows edition) (content_of (lent_record bytes.now)).values }
{
    for i in 0..16 {
        let row = edition.rows[i];
        let at = 14 + i * 29;
        let end = at + 29;
        let refusal = check_row(row, edition_tags::tag_of(i), &bytes[at..end], kinds);
        if refusal.number != 0 {
            return refusal;
        }
    }
    Refusal::NONE
}
