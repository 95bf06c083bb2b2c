// The day file, a round of visits: the images in order of reading, their index and a trailer. What one is, and what each call over one answers.
// Nothing is done here: the crates above this one check a file, count, look up, add and build. Where a file is kept is the caller's.
// A file is told by its images alone: of the same images in the same order there is one file.
#![tactic(auto)]

use card::Refusal;

// The index of a file has at most 200 entries of 14 bytes.
pub const MOST_INDEX: usize = 2800;

// What was asked for, or why it is refused.
pub type Answer = Result<usize, Refusal>;
