// The record that a card's text makes.
// Any text may be lent. Whether an edition writes the record is the writer's to tell.
// A text with a fault makes a record all the same: what is wrong with it is told by `text_checks`, and no line can set the checksum.
#![tactic(auto)]

ghost use Rattle.std.specs.Prelude.{◌≡◌};
ghost use Rattle.card_text.specs.Records.{byte_or, free_said, record_said};

use card::Record;

// A byte in hex digits, or another where the text has no line for it.
fn byte_or(text: &[u8], key: usize, other: u8) -> u8
    ensures { result ≡ byte_or text.now key other }
{
    if text_entries::line_of(text, key).is_none() {
        return other;
    }
    text_hex::byte_at(text_entries::value(text, key), 0)
}

// The free bytes of a value in hex digits.
fn free_bytes(value: &[u8]) -> [u8; 12]
    ensures { result ≡ free_said value.now }
{
    let mut free = [0u8; 12];
    for i in 0..12 {
        free[i] = text_hex::byte_at(value, i);
    }
    free
}

// The record that a text makes, with an edition's number on it. Where no line says otherwise, address 0 is '92', and the free bytes and the last byte are '00'.
pub fn record_of(text: &[u8], number: u8) -> Record
    ensures { result ≡ record_said text.now number }
{
    Record {
        first: byte_or(text, card_lines::FIRST, 0x92),
        free: free_bytes(text_entries::value(text, card_lines::FREE)),
        last: byte_or(text, card_lines::LAST, 0x00),
        objects: text_objects::objects_of(text),
        number,
    }
}
