// What an image has at the places of a table: whether an object is there, and its part of the image.
// Any image and any table may be lent, also ones that do not belong together; which table is an image's own is the reader's to say.
// An object that the table has is there even where its place is not in the image: its part is then empty.
#![tactic(auto)]

ghost use Rattle.std.specs.Prelude.{◌≡◌, ◌+◌};
ghost use Rattle.lookup.specs.Parts.{is_there, within, part_at};

use card::Places;

// Whether a table has an object of row k, of the sixteen.
pub fn is_there(table: Places, k: usize) -> bool
    ensures { result ≡ is_there table k }
{
    let lengths = table.lengths;
    ground_parts::byte_at(&lengths, k) != 0
}

// The address behind a place.
fn behind(start: u8, length: u8) -> usize
    ensures { result ≡ start + length }
{
    start as usize + length as usize
}

// So many bytes of an image from a start on; none where the image does not have them.
pub fn cut<'a>(image: &'a [u8], start: u8, length: u8) -> &'a [u8]
    ensures { result.now ≡ within image.now start length }
{
    let from = start as usize;
    let to = behind(start, length);
    if to > image.len() {
        return &image[0..0];
    }
    &image[from..to]
}

// Row k's part of an image; empty where the object is absent, or its place is not in the image.
pub fn part_at<'a>(image: &'a [u8], table: Places, k: usize) -> &'a [u8]
    ensures { result.now ≡ part_at image.now table k }
{
    let starts = table.starts;
    let lengths = table.lengths;
    cut(
        image,
        ground_parts::byte_at(&starts, k),
        ground_parts::byte_at(&lengths, k),
    )
}
