// A day file built afresh from images that are laid end to end.
// Any bytes and any room may be lent; that the room is kept is the caller's.
// More than 200 images are all read first: the position of one that is refused is told before the 43.
#![tactic(auto)]

ghost use Rattle.std.specs.Prelude.{◌≡◌, ◌*◌, ◌/◌, ◌≤◌, length, take};
ghost use Rattle.day.specs.Files.{index_bytes};
ghost use Rattle.day.specs.Calls.{laid_images, build_refusal, build_answer, build_room};

use card::Refusal;
use day::Answer;

// Checks images for a room of this size, and fills `index` with their index.
fn check_build(images: &[u8], size: usize, index: &mut [u8]) -> Refusal
    requires { 2800 ≤ length index.old }
    ensures value { result ≡ build_refusal images.now size }
    ensures index_after { result.number ≡ 0 → take (length images.now / 256 * 14) index.new ≡ index_bytes (laid_images images.now) }
{
    if images.len() % 256 != 0 {
        return Refusal::new(40, 0, 0);
    }
    let refusal = day_gather::gather(images, index);
    let small = day_limits::refuse_room(images.len() / 256, size);
    day_told::or_else(refusal, small)
}

// Builds a file: it stands at the start of the room, and its length is the answer.
pub fn build(images: &[u8], room: &mut [u8]) -> Answer
    ensures value { result ≡ build_answer images.now room.old }
    ensures room_after { room.new ≡ build_room images.now room.old }
{
    let mut index = [0u8; day::MOST_INDEX];
    let refusal = check_build(images, room.len(), &mut index);
    if refusal.number != 0 {
        return Err(refusal);
    }
    let count = images.len() / 256;
    let size = count * 14;
    ground_room::put(room, 0, images);
    day_trailer::close(room, count, &index[..size]);
    Ok(count * 270 + 8)
}
