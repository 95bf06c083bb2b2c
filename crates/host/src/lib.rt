// What a host program asks of a card by command: a range of the template's bytes, from '60' to the checksum's value.
// Any edition, image, command and room may be lent; how the command came, and where the answer goes, is the caller's.
// '6700' to '6A00' are answers that stand in the room, and no refusals: only a room of another size is refused, and left as it is.
#![tactic(auto)]

mod asking;

ghost use Rattle.std.specs.Prelude.{◌≡◌, [], ◌∷◌, ◌++◌, ◌+◌, ◌≤◌, length};
ghost use Rattle.ground.specs.Rooms.{Put};
ghost use Rattle.host.specs.Hosting.{hosted_of, room_after};

use asking::ask;
use card::Refusal;
use edition::Edition;

// 20 or no refusal, and how many bytes of answer stand at the start of the room.
#[derive(Clone, Copy)]
pub struct Hosted {
    pub refusal: Refusal,
    pub length: usize,
}

// Puts a part of the image, then the status and '00', at the start of a room, and answers the place behind them.
fn put_answer(room: &mut [u8], part: &[u8], status: u8) -> usize
    requires { length part.now + 2 ≤ length room.old }
    ensures { Put room.old 0 (part.now ++ (status ∷ 0 ∷ [])) room.new result }
{
    let behind = ground_room::put(room, 0, part);
    ground_room::put(room, behind, &[status, 0])
}

// Answers a command over an image under an edition, at the start of a room of 257 bytes.
pub fn host(edition: Edition, image: &[u8], command: &[u8], room: &mut [u8]) -> Hosted
    ensures value { result ≡ hosted_of edition image.now command.now room.old }
    ensures room_after { room.new ≡ room_after edition image.now command.now room.old }
{
    if room.len() != 257 {
        return Hosted {
            refusal: Refusal::new(20, 0, 0),
            length: 0,
        };
    }
    let asked = ask(edition, image, command);
    let start = asked.start;
    let stop = start + asked.count as usize;
    let length = put_answer(room, &image[start..stop], asked.status);
    Hosted {
        refusal: Refusal::none(),
        length,
    }
}
