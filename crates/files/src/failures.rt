// What failed, and why: a line on standard error.
use crate::streams;
use std::fmt;
use std::fmt::Write as _;
use std::io::Error;

// What the library puts behind the system's text of an error, with the number of the error.
const BEHIND: &str = " (os error ";

// Writes the text of an error up to its number.
#[derive(Drop)]
struct Cause<'a, P> {
    to: &'a P,
    is_over: bool,
}

impl<P: Print> fmt::Write for Cause<'_, P> {
    fn write_str(&mut self, text: &str) -> fmt::Result {
        self.is_over = self.is_over || text.starts_with(BEHIND);
        if !self.is_over {
            streams::write_all(self.to, text.as_bytes());
        }
        Ok(())
    }
}

// Says what failed, a colon, and the error's text.
pub(crate) fn fail<P: Print>(to: &P, what: &[u8], error: Error) {
    streams::write_all(to, what);
    streams::write_all(to, b": ");
    let mut cause = Cause { to, is_over: false };
    let _ = write!(cause, "{error}");
    streams::write_all(to, b"\n");
}
