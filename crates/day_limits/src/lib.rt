// What is refused of a day file by its numbers alone: a position past the last card, one card more, a room that is too small.
// Any numbers may be lent; that they are those of a file is the caller's to know.
// One card more is refused for the 200 that are there before the room is looked at.
#![tactic(auto)]

ghost use Rattle.std.specs.Prelude.{◌≡◌};
ghost use Rattle.day.specs.Calls.{past_refusal, more_refusal, room_refusal};

use card::Refusal;

// 44.
pub fn refuse_position(position: usize, count: usize) -> Refusal
    ensures { result ≡ past_refusal position count }
{
    if position < count {
        return Refusal::none();
    }
    Refusal::new(44, 0, 0)
}

// 43, 45: of a file of so many cards, where one more comes into a room of this size.
pub fn refuse_more(count: usize, size: usize) -> Refusal
    ensures { result ≡ more_refusal count size }
{
    if count >= 200 {
        return Refusal::new(43, 0, 0);
    }
    if size < (count + 1) * 270 + 8 {
        return Refusal::new(45, 0, 0);
    }
    Refusal::none()
}

// 45: the file of so many cards in a room of this size.
pub fn refuse_room(count: usize, size: usize) -> Refusal
    ensures { result ≡ room_refusal count size }
{
    if size < 8 {
        return Refusal::new(45, 0, 0);
    }
    if (size - 8) / 270 < count {
        return Refusal::new(45, 0, 0);
    }
    Refusal::none()
}
