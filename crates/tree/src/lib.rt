// What the objects of a foreign card are, how they are listed, and that the listing is right: the definitions and the theorems.
// No code but the answers' types, and a refusal put together: the objects are listed by `tree_list::list_tree`.
// The theorems are of the definition; each piece's contract says that its answer is the definition's.
#![tactic(auto)]

ghost use Rattle.std.specs.Prelude.{◌≡◌};

// An object's tag, where its value starts behind the tag, and the value's length.
#[derive(Clone, Copy, PartialEq, Eq)]
pub struct Head {
    pub tag: u8,
    pub start: usize,
    pub length: usize,
}

// How many words the room has up to here, and how many bytes were read.
#[derive(Clone, Copy, PartialEq, Eq)]
pub struct Scan {
    pub words: usize,
    pub used: usize,
}

// A refusal's number, and with 50 to 53 its place.
#[derive(Clone, Copy, PartialEq, Eq)]
pub struct Refusal {
    pub number: u8,
    pub place: u16,
}

impl Refusal {
    pub fn new(number: u8, place: u16) -> Refusal
        ensures { result ≡ record { number = number; place = place } }
    {
        Refusal { number, place }
    }
}
