// A view: a lent image and a table of places, with two calls that hand on to `lookup`.
// Any image and any table may be held, also ones that do not belong together; a view of an image's own table is for its maker to make.
// It is a struct that holds a reference: a part that it hands out lives as long as the image, and longer than the view may.
#![tactic(auto)]

ghost use Rattle.std.specs.Prelude.{◌≡◌};
ghost use Rattle.lookup.specs.Parts.{is_there, part_at};

use card::Places;

#[derive(Clone, Copy)]
pub struct View<'a> {
    pub image: &'a [u8],
    pub table: Places,
}

impl<'a> View<'a> {
    // Whether the object of row k is there.
    pub fn has(self, k: usize) -> bool
        ensures { result ≡ is_there self.entry.table k }
    {
        lookup::is_there(self.table, k)
    }

    // Row k's part of the image, empty where the object is absent.
    pub fn part(self, k: usize) -> &'a [u8]
        ensures { result.now ≡ part_at self.entry.image.now self.entry.table k }
    {
        lookup::part_at(self.image, self.table, k)
    }
}
