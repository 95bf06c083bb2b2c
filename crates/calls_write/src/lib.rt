// The call that writes a record of 479 bytes into an image, under a table of 103 bytes.
// Any table, record and image may be lent, of whatever size: what has not its size is refused with a number.
// A record that is refused leaves the image as it is.
#![tactic(auto)]

ghost use Rattle.std.specs.Prelude.{◌≡◌};
ghost use Rattle.wire.specs.Answers.{packed};
ghost use Rattle.calls_cards.specs.Calls.{kvk_write, kvk_write_image};

use card::Refusal;

fn written(table: &[u8], bytes: &[u8], image: &mut [u8]) -> Refusal
    ensures value { result ≡ kvk_write table.now bytes.now image.old }
    ensures image_after { image.new ≡ kvk_write_image table.now bytes.now image.old }
{
    if bytes.len() != 479 {
        return Refusal::new(20, 0, 0);
    }
    if image.len() != 256 {
        return Refusal::new(20, 0, 0);
    }
    if table.len() != 103 {
        return Refusal::new(2, 0, 0);
    }
    writer::write_lent(table, bytes, image)
}

// Writes a record of 479 bytes into an image, under a table of 103 bytes.
pub fn write(table: &[u8], bytes: &[u8], image: &mut [u8]) -> u64
    ensures value { result ≡ packed (kvk_write table.now bytes.now image.old) }
    ensures image_after { image.new ≡ kvk_write_image table.now bytes.now image.old }
{
    wire::pack(written(table, bytes, image))
}
