// What a card is: record, refusal and places; the rule book stands in specs/, and here the pieces that reader and writer share.
// Each piece answers for the part that it is lent; the order of the refusals is reader's and writer's.
// A record may claim a length past the 28 bytes that it has: its value then goes on with zeros, and no row permits it.
#![tactic(auto)]

ghost use Rattle.std.specs.Prelude.{◌≡◌};
ghost use Rattle.card.specs.Content.{empty_record};
ghost use Rattle.card.specs.Refusals.{refuse, refuse_length, none};
ghost use Rattle.card.specs.Places.{no_places};

// An object's value is its first bytes up to the length; length 0 means absent.
#[derive(Clone, Copy)]
pub struct Object {
    pub length: u8,
    pub bytes: [u8; 28],
}

#[derive(Clone, Copy)]
pub struct Record {
    // Address 0.
    pub first: u8,
    // Addresses 6 to 16, then 29.
    pub free: [u8; 12],
    // Address 255.
    pub last: u8,
    // In card order, without the checksum.
    pub objects: [Object; 16],
    // That of the edition that the record was read under; 0 in the empty record.
    pub number: u8,
}

// Shortest and longest are the ends of the row's length set with number 7, else 0. All 0: no refusal.
// Number 0 says none, and no Option does: `packed` in the specs of wire, the answer of each call from C, is made of these five numbers.
#[derive(Clone, Copy)]
pub struct Refusal {
    pub number: u8,
    pub place: usize,
    pub tag: u8,
    pub shortest: u8,
    pub longest: u8,
}

// What stands where a length is due. The range of the length is the caller's to judge.
// No Option and no Result: the byte counts in three of the four forms, also where the form is none that a card has.
#[derive(Clone, Copy)]
pub enum LengthField {
    // One byte, up to 127.
    One(u8),
    // '81' and one byte.
    Two(u8),
    // Another first byte.
    Other(u8),
    // No byte, or nothing behind '81'.
    Cut,
}

// What a reading gives back.
// The refusal stands beside the content, and no Result does: `read_empty` of `demands`, and the call from C, hand out the empty record with a refusal.
#[derive(Clone, Copy)]
pub struct Reading {
    pub refusal: Refusal,
    pub content: Record,
}

// Where the sixteen values stand in an image: the address of each value's first byte, and its length; 0 and 0 where it is
// absent, and where the image is refused.
// The refusal stands beside the places, and no Result does: `kvk_places_room`, the room of the call from C, has these zeros with a refusal.
#[derive(Clone, Copy)]
pub struct Places {
    pub refusal: Refusal,
    pub starts: [u8; 16],
    pub lengths: [u8; 16],
}

impl Object {
    pub const ABSENT: Object = Object {
        length: 0,
        bytes: [0; 28],
    };
}

impl Record {
    pub const EMPTY: Record = Record {
        first: 0,
        free: [0; 12],
        last: 0,
        objects: [Object::ABSENT; 16],
        number: 0,
    };

    pub fn empty() -> Record
        ensures { result ≡ empty_record }
    {
        Record::EMPTY
    }
}

impl Refusal {
    pub const NONE: Refusal = Refusal {
        number: 0,
        place: 0,
        tag: 0,
        shortest: 0,
        longest: 0,
    };

    pub fn new(number: u8, place: usize, tag: u8) -> Refusal
        ensures { result ≡ refuse number place tag }
    {
        Refusal {
            number,
            place,
            tag,
            shortest: 0,
            longest: 0,
        }
    }

    // Number 7, with the ends of the set.
    pub fn of_length(place: usize, tag: u8, lengths: u32) -> Refusal
        ensures { result ≡ refuse_length place tag lengths }
    {
        Refusal {
            number: 7,
            place,
            tag,
            shortest: edition_lengths::shortest(lengths),
            longest: edition_lengths::longest(lengths),
        }
    }

    pub fn none() -> Refusal
        ensures { result ≡ none }
    {
        Refusal::NONE
    }
}

impl Places {
    pub fn refused(refusal: Refusal) -> Places
        ensures { result ≡ no_places refusal }
    {
        Places {
            refusal,
            starts: [0; 16],
            lengths: [0; 16],
        }
    }
}
