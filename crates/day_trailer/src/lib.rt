// The trailer of a day file: whether one fits its file, and a file closed with its index and trailer.
// Any bytes, count and room may be lent; that the index is that of the images is the caller's to know.
// A room is closed as a whole or not at all: too many images, or an index or a room of another size, leave it as it is.
#![tactic(auto)]

ghost use Rattle.std.specs.Prelude.{◌≡◌, ◌++◌, ◌+◌, ◌*◌, ◌≤◌, length};
ghost use Rattle.std.proofs.lemmas.List.Edits.{sets};
ghost use Rattle.day.specs.Files.{trailer, size_of, fits, closed};

// The trailer of so many images and their index.
fn trailer_of(count: usize, index: &[u8]) -> [u8; 8]
    requires { count ≤ 200 }
    ensures { result ≡ trailer count index.now }
{
    let start = count * 256;
    [
        (start >> 24) as u8,
        ((start >> 16) % 256) as u8,
        ((start >> 8) % 256) as u8,
        (start % 256) as u8,
        (count / 256) as u8,
        (count % 256) as u8,
        card_checksum::checksum(index),
        1,
    ]
}

// Whether length, count and trailer fit.
pub fn is_framed(file: &[u8]) -> bool
    ensures { result ≡ fits file.now }
{
    if file.len() < 8 {
        return false;
    }
    let count = day_told::count_in(file);
    if count > 200 {
        return false;
    }
    if file.len() != count * 270 + 8 {
        return false;
    }
    let start = count * 256;
    let end = count * 270;
    let trailer = trailer_of(count, &file[start..end]);
    ground_parts::is_same(&file[end..], &trailer)
}

// The same as close, of what fits.
fn seal(room: &mut [u8], count: usize, index: &[u8])
    requires { (count ≤ 200) × (length index.now ≡ count * 14) × (size_of count ≤ length room.old) }
    ensures { room.new ≡ sets room.old (count * 256) (index.now ++ trailer count index.now) }
{
    ground_room::put(room, count * 256, index);
    let trailer = trailer_of(count, index);
    ground_room::put(room, count * 270, &trailer);
}

// Closes a file of so many images with their index and its trailer.
pub fn close(room: &mut [u8], count: usize, index: &[u8])
    ensures { room.new ≡ closed count index.now room.old }
{
    if 200 < count {
        return;
    }
    if index.len() != count * 14 {
        return;
    }
    if room.len() < count * 270 + 8 {
        return;
    }
    seal(room, count, index);
}
