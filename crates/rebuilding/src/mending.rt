// The record of the first card, changed to the second's where a list names it.
ghost use Rattle.std.specs.Prelude.{◌≡◌, cond};
ghost use Rattle.card.specs.Content.{content_of};
ghost use Rattle.card.specs.Layout.{object_tags};
ghost use Rattle.differences.specs.Differences.{free_addresses};
ghost use Rattle.rebuilding.specs.Rebuilding.{names_tag, names_address, mended, rebuilt};

use crate::listed;
use card::{Object, Record};

fn mend_byte(entries: &[u32], address: u8, first: u8, second: u8) -> u8
    ensures { result ≡ cond (names_address entries.now address) second first }
{
    if listed::names_address(entries, address) {
        second
    } else {
        first
    }
}

fn mend_object(entries: &[u32], tag: u8, first: Object, second: Object) -> Object
    ensures { result ≡ cond (names_tag entries.now tag) second first }
{
    if listed::names_tag(entries, tag) {
        second
    } else {
        first
    }
}

// Addresses 6 to 16, then 29.
fn mend_free(entries: &[u32], first: [u8; 12], second: [u8; 12]) -> [u8; 12]
    ensures { result ≡ mended (names_address entries.now) free_addresses first second }
{
    let addresses: [u8; 12] = [6, 7, 8, 9, 10, 11, 12, 13, 14, 15, 16, 29];
    let mut free = first;
    for i in 0..12 {
        free[i] = mend_byte(entries, addresses[i], first[i], second[i]);
    }
    free
}

fn mend_objects(entries: &[u32], first: [Object; 16], second: [Object; 16]) -> [Object; 16]
    ensures { result ≡ mended (names_tag entries.now) object_tags first second }
{
    let mut objects = first;
    for i in 0..16 {
        let a = first[i];
        let b = second[i];
        objects[i] = mend_object(entries, edition_tags::tag_of(i), a, b);
    }
    objects
}

// The rebuilt record, with this number.
pub(crate) fn mend(entries: &[u32], first: Record, second: Record, number: u8) -> Record
    ensures result_value { content_of result ≡ rebuilt entries.now (content_of first) (content_of second) }
    ensures number_value { result.number ≡ number }
{
    let free = first.free;
    let others = second.free;
    let objects = first.objects;
    let values = second.objects;
    Record {
        first: mend_byte(entries, 0, first.first, second.first),
        free: mend_free(entries, free, others),
        last: mend_byte(entries, 255, first.last, second.last),
        objects: mend_objects(entries, objects, values),
        number,
    }
}
