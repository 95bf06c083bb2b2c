// Rewriting a card byte by byte: our own plans, under which a card can be pulled at any time.
// Any edition, images and room may be lent; taking the steps, in their order, is the caller's.
// The template's tag is spoiled first and written last, so that no state between is a card under any edition; one byte needs neither.
#![tactic(auto)]

mod steps;

ghost use Rattle.std.specs.Prelude.{◌≡◌};
ghost use Rattle.planning.specs.Planning.{planned, room_after};

use card::Refusal;
use edition::Edition;

// How many words of the lent room are steps; none with a refusal.
#[derive(Clone, Copy)]
pub struct Planned {
    pub refusal: Refusal,
    pub count: usize,
}

// Plans the steps from the old image to the new one, into a room of 257 words: a step is its address times 256, and its byte.
pub fn plan(edition: Edition, old: &[u8], new: &[u8], room: &mut [u32]) -> Planned
    ensures value { result ≡ planned edition old.now new.now room.old }
    ensures room_after { room.new ≡ room_after edition old.now new.now room.old }
{
    if room.len() != 257 {
        return Planned {
            refusal: Refusal::new(20, 0, 0),
            count: 0,
        };
    }
    let refusal = rewriting::refuse_input(edition, old.len(), new);
    if refusal.number != 0 {
        return Planned { refusal, count: 0 };
    }
    Planned {
        refusal: Refusal::none(),
        count: steps::put_plan(room, old, new),
    }
}
