// A listing, with what is wrong in words.
ghost use Rattle.std.specs.Prelude.{◌<◌};

use edition::Edition;
use files::Outside;

// Lists an image.
pub fn list_image<R: Outside>(rt: &R, edition: Edition, image: &[u8]) -> u8
    ensures { result < 4 }
{
    let mut room = [0u8; 521];
    let size = listing::list(edition, image, &mut room);
    let is_written = files::write_all(rt, &room[..size]);
    if is_written & (room[0] == b'R') {
        crate::say_refused(rt, edition, image);
        return crate::REFUSED;
    }
    crate::written(rt, is_written)
}
