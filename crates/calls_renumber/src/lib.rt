// The call that puts the number of a table on a record of 479 bytes, in place.
// Any table and record may be lent, of whatever size: what has not its size is refused with a number.
// The number is put only if the edition would write the record but for it; else the record is left as it is.
#![tactic(auto)]

ghost use Rattle.std.specs.Prelude.{◌≡◌};
ghost use Rattle.wire.specs.Answers.{packed};
ghost use Rattle.calls_cards.specs.Calls.{kvk_renumber, kvk_renumber_bytes};

use card::Refusal;

fn renumber_refusal(table: &[u8], bytes: &[u8]) -> Refusal
    ensures { result ≡ kvk_renumber table.now bytes.now }
{
    if bytes.len() != 479 {
        return Refusal::new(20, 0, 0);
    }
    if table.len() != 103 {
        return Refusal::new(2, 0, 0);
    }
    renumber::renumber(
        wire_tables::edition_of(table),
        wire_records::record_of(bytes),
    )
    .refusal
}

// Puts the number of a table of 103 bytes on a record of 479 bytes, in place, if its edition would write the record but for the number.
pub fn renumber(table: &[u8], bytes: &mut [u8]) -> u64
    ensures value { result ≡ packed (kvk_renumber table.now bytes.old) }
    ensures bytes_after { bytes.new ≡ kvk_renumber_bytes table.now bytes.old }
{
    let refusal = renumber_refusal(table, bytes);
    if refusal.number != 0 {
        return wire::pack(refusal);
    }
    bytes[478] = table[102];
    wire::pack(refusal)
}
