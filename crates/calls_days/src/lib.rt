// The calls on a day file: each answer of `day` as one number.
// Any bytes may be lent; what is refused of them is the day file's to say.
// With 41 the value is the position of the card, which may be more than a place can hold.
#![tactic(auto)]

ghost use Rattle.std.specs.Prelude.{◌≡◌};
ghost use Rattle.day.specs.Calls.{count_answer, image_answer, find_answer, add_answer, add_room, build_answer, build_room};
ghost use Rattle.calls_days.specs.Days.{day_packed};

use card::Refusal;
use day::Answer;

#[tactic(auto, unfolding(crate::specs::Days::day_packed))]
fn packed_day(answer: Answer) -> u64
    ensures { result ≡ day_packed answer }
{
    match answer {
        Ok(value) => wire::pack_value(Refusal::none(), value),
        Err(refusal) if refusal.number == 41 => {
            wire::pack_value(Refusal::new(41, 0, 0), refusal.place)
        }
        Err(refusal) => wire::pack_value(refusal, 0),
    }
}

// How many cards a file has.
pub fn day_count(file: &[u8]) -> u64
    ensures { result ≡ day_packed (count_answer file.now) }
{
    packed_day(day_read::count(file))
}

// Where the image at a position starts in a file.
pub fn day_image(file: &[u8], position: u64) -> u64
    ensures { result ≡ day_packed (image_answer file.now position) }
{
    packed_day(day_read::image_start(file, position as usize))
}

// The position of the first card with a number.
pub fn day_find(file: &[u8], number: &[u8]) -> u64
    ensures { result ≡ day_packed (find_answer file.now number.now) }
{
    packed_day(day_find::find(file, number))
}

// Fills the start of a room with a file and one card more at its end; the value is the new file's length.
pub fn day_add(file: &[u8], card: &[u8], room: &mut [u8]) -> u64
    ensures value { result ≡ day_packed (add_answer file.now card.now room.old) }
    ensures room_after { room.new ≡ add_room file.now card.now room.old }
{
    packed_day(day_add::add(file, card, room))
}

// Fills the start of a room with the file of some images; the value is its length.
pub fn day_build(images: &[u8], room: &mut [u8]) -> u64
    ensures value { result ≡ day_packed (build_answer images.now room.old) }
    ensures room_after { room.new ≡ build_room images.now room.old }
{
    packed_day(day_build::build(images, room))
}
