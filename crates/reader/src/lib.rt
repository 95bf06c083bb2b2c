// The reader: the record of an image, copied from the places of its values, or its refusal.
// The call is total and promises one answer for any bytes and any edition; nothing is kept.
// The places are found first, so a refused image costs no copy.
#![tactic(auto)]

ghost use Rattle.std.specs.Prelude.{◌≡◌, map, ◌≤◌, length};
ghost use Rattle.card.specs.Content.{object_of, record_of};
ghost use Rattle.card.specs.Frame.{free_of};
ghost use Rattle.card.specs.Reading.{content_at, reading};
ghost use Rattle.reader_steps.specs.Steps.{values_at, Inside};
ghost use Rattle.reader.specs.Records.{read_at};

use card::{Object, Places, Reading, Record, Refusal};
use edition::Edition;

// The object of a value; what lies behind the value is 0.
fn copy_object(value: &[u8]) -> Object
    requires { length value.now ≤ 28 }
    ensures { result ≡ object_of value.now }
{
    let mut bytes = [0u8; 28];
    ground_room::put(&mut bytes, 0, value);
    Object {
        length: value.len() as u8,
        bytes,
    }
}

// The sixteen objects.
fn copy_objects(image: &[u8], starts: [u8; 16], lengths: [u8; 16]) -> [Object; 16]
    requires { Inside image.now starts lengths }
    ensures { result ≡ map object_of (values_at image.now starts lengths) }
{
    let mut objects = [Object::ABSENT; 16];
    for (i, object) in objects.iter_mut().enumerate() {
        let start = starts[i] as usize;
        let stop = start + lengths[i] as usize;
        *object = copy_object(&image[start..stop]);
    }
    objects
}

// Addresses 6 to 16, then 29.
fn copy_free(image: &[u8]) -> [u8; 12]
    requires { 30 ≤ length image.now }
    ensures { result ≡ free_of image.now }
{
    let mut free = [0u8; 12];
    ground_room::put(&mut free, 0, &image[6..17]);
    free[11] = image[29];
    free
}

// The record of those objects, with a number.
fn copy_record(image: &[u8], starts: [u8; 16], lengths: [u8; 16], number: u8) -> Record
    requires { (length image.now ≡ 256) × Inside image.now starts lengths }
    ensures { result ≡ record_of number (content_at image.now (values_at image.now starts lengths)) }
{
    Record {
        first: image[0],
        free: copy_free(image),
        last: image[255],
        objects: copy_objects(image, starts, lengths),
        number,
    }
}

// What the table of an image's places makes of it: its record, or the refusal and the empty record.
fn read_at(table: Places, image: &[u8], number: u8) -> Reading
    requires { table.refusal.number ≡ 0 → (length image.now ≡ 256) × Inside image.now table.starts table.lengths }
    ensures { result ≡ read_at table image.now number }
{
    let refusal = table.refusal;
    if refusal.number != 0 {
        return Reading {
            refusal,
            content: Record::empty(),
        };
    }
    let starts = table.starts;
    let lengths = table.lengths;
    Reading {
        refusal: Refusal::none(),
        content: copy_record(image, starts, lengths, number),
    }
}

// Reads an image: its record with the edition's number, or the refusal and the empty record.
pub fn read(edition: Edition, image: &[u8]) -> Reading
    ensures { result ≡ reading edition image.now }
{
    let number = edition.number;
    let table = reader_places::places(edition, image);
    read_at(table, image, number)
}
