// The objects of a template, in definitions: what stands at an address, what a row meets there, the table of places.
// No code: the crates above read the objects. Whether the edition is well formed is the reader's to ask.
// 12 is told with the table, 11 by the reader: the sums are asked of a whole table.
#![tactic(auto)]

// The object behind a tag: its row, where its value begins, and how long it is.
#[derive(Clone, Copy)]
pub struct Found {
    pub row: usize,
    pub start: usize,
    pub length: usize,
}

// What the object behind a tag is refused with; the ends of the row's set are not told yet.
#[derive(Clone, Copy)]
pub struct Refused {
    pub number: u8,
    pub place: usize,
    pub tag: u8,
}

// What a row meets where its object is there: where the value begins, and how long it is.
#[derive(Clone, Copy)]
pub struct Met {
    pub start: usize,
    pub length: usize,
}
