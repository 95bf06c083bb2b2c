// The four words of one object, put into a room of words where they fit.
// Any room, any place in it and any words may be handed over. How many words there are before is the caller's.
// Where the four do not fit the room is left as it is.
#![tactic(auto)]

ghost use Rattle.std.specs.Prelude.{◌≡◌, [], ◌∷◌};
ghost use Rattle.ground.specs.Rooms.{room_with};
ghost use Rattle.tree.specs.Listing.{Entry};
ghost use Rattle.tree.specs.Answers.{words};

pub fn put_words(room: &mut [u16], k: usize, tag: u8, depth: u16, at: u16, length: u16)
    ensures { room.new ≡ room_with room.old k (words (Entry.entry tag depth at length ∷ [])) }
{
    if room.len() < 4 {
        return;
    }
    if k <= room.len() - 4 {
        room[k] = tag as u16;
        room[k + 1] = depth;
        room[k + 2] = at;
        room[k + 3] = length;
    }
}
