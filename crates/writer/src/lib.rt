// The writer: a record becomes the 256 bytes of a card, or is refused and the buffer is left as it is.
// Any edition, table, record and buffer may be lent.
// Nothing is written before all is checked, and the checksum is computed here: no entry point takes it.
#![tactic(auto)]

mod body;
mod fields;
mod filler;
mod head;
mod template;

ghost use Rattle.std.specs.Prelude.{◌≡◌, cond, ◌≤◌, eqb, length, take};
ghost use Rattle.std.proofs.lemmas.List.Edits.{sets};
ghost use Rattle.card.specs.Content.{content_of};
ghost use Rattle.card.specs.Layout.{head, layout};
ghost use Rattle.card.specs.Writing.{record_refusal, buffer_after};
ghost use Rattle.wire_tables.specs.Tables.{lent_edition};
ghost use Rattle.wire_records.specs.Records.{lent_record};
ghost use Rattle.checks.specs.Lending.{lent_refusal};
ghost use Rattle.writer.specs.Storing.{Lendable, lent_after};

use card::{Record, Refusal};
use edition::Edition;

// Writes a record into a buffer of 256 bytes, or says why not and leaves the buffer as it is.
pub fn write(edition: Edition, content: Record, buffer: &mut [u8]) -> Refusal
    ensures value { result ≡ record_refusal edition content buffer.old }
    ensures buffer_after { buffer.new ≡ buffer_after edition content buffer.old }
{
    let mut bytes = [0u8; 479];
    wire_records::write_record(content, &mut bytes);
    let refusal = checks::check(edition, content, buffer.len());
    write_unless(refusal, &bytes, buffer);
    refusal
}

// The same of a lent record, under the edition of a lent table; 20 too for a record that has not 479 bytes.
pub fn write_lent(table: &[u8], bytes: &[u8], buffer: &mut [u8]) -> Refusal
    ensures value { result ≡ lent_refusal (lent_edition table.now) bytes.now (length buffer.old) }
    ensures buffer_after { buffer.new ≡ lent_after (lent_edition table.now) bytes.now buffer.old }
{
    let refusal = checks::check_lent(table, bytes, buffer.len());
    write_unless(refusal, bytes, buffer);
    refusal
}

// Writes a record that no check refuses; of another the buffer is left as it is.
fn write_unless(refusal: Refusal, bytes: &[u8], buffer: &mut [u8])
    requires { refusal.number ≡ 0 → Lendable bytes.now × (length buffer.old ≡ 256) }
    ensures { buffer.new ≡ cond (eqb refusal.number 0) (layout (content_of (lent_record bytes.now))) buffer.old }
{
    if refusal.number != 0 {
        return;
    }
    write_card(buffer, bytes);
}

// Writes all 256 bytes of a record that no check refuses. They are put together in a room of their own, which has 16 bytes more.
fn write_card(buffer: &mut [u8], bytes: &[u8])
    requires { Lendable bytes.now × (length buffer.old ≡ 256) }
    ensures { buffer.new ≡ layout (content_of (lent_record bytes.now)) }
{
    let mut room = [0u8; 272];
    lay_out(&mut room, bytes);
    ground_room::put(buffer, 0, &room[..256]);
}

// Addresses 0 to 255, one part behind the other.
fn lay_out(room: &mut [u8], bytes: &[u8])
    requires { Lendable bytes.now × (length room.old ≡ 272) }
    ensures { take 256 room.new ≡ layout (content_of (lent_record bytes.now)) }
{
    write_front(room, bytes);
    let end = template::write_template(room, bytes);
    filler::write_filler(&mut room[end..256], bytes[13]);
}

// Addresses 0 to 29.
fn write_front(room: &mut [u8], bytes: &[u8])
    requires { (length bytes.now ≡ 479) × (30 ≤ length room.old) }
    ensures { room.new ≡ sets room.old 0 (head (lent_record bytes.now).first (lent_record bytes.now).free) }
{
    let mut free = [0u8; 12];
    ground_room::put(&mut free, 0, &bytes[1..13]);
    head::write_head(room, bytes[0], free);
}
