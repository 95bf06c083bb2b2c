// Files and numbers that words of the command line name.
use files::{Outside, Source};

// Opens the file that word i names, if it can be.
pub(crate) fn open_at<R: Outside>(rt: &R, i: usize) -> Option<Source<R::Reader, R::File>> {
    let mut path = [0u8; 4096];
    let length = files::arg(rt, i, &mut path);
    files::open(rt, &path[..length])
}

// Writes the first bytes of a room to the file that word i names, and answers the status of that.
pub(crate) fn write_file<R: Outside>(rt: &R, i: usize, room: &[u8], size: usize) -> bool {
    let mut path = [0u8; 4096];
    let length = files::arg(rt, i, &mut path);
    if size > room.len() {
        return false;
    }
    files::write(rt, &path[..length], &room[..size])
}

// The number that word i writes in at most four digits, if it is such a word.
pub(crate) fn number_at<R: Outside>(rt: &R, i: usize) -> Option<usize> {
    let mut word = [0u8; 4];
    let length = files::arg(rt, i, &mut word);
    if length == 0 {
        return None;
    }
    let mut number: usize = 0;
    for digit in &word[..length] {
        let b'0'..=b'9' = digit else {
            return None;
        };
        number = number % 1000 * 10 + (*digit - b'0') as usize;
    }
    Some(number)
}
