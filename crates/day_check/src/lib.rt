// The check of a whole day file: its length, count and trailer, every image, and the index.
// Any bytes may be lent.
// The index is made anew from the images and compared, so that it is that of the images, in order and whole, wherever nothing is refused.
#![tactic(auto)]

ghost use Rattle.std.specs.Prelude.{◌≡◌};
ghost use Rattle.day.specs.Files.{file_refusal};

use card::Refusal;

// 40, 41, 42.
pub fn check(file: &[u8]) -> Refusal
    ensures { result ≡ file_refusal file.now }
{
    if !day_trailer::is_framed(file) {
        return Refusal::new(40, 0, 0);
    }
    let count = day_told::count_in(file);
    let start = count * 256;
    let mut index = [0u8; day::MOST_INDEX];
    let refusal = day_gather::gather(&file[..start], &mut index);
    if refusal.number != 0 {
        return refusal;
    }
    let end = count * 270;
    let size = count * 14;
    if !ground_parts::is_same(&file[start..end], &index[..size]) {
        return Refusal::new(42, 0, 0);
    }
    Refusal::none()
}
