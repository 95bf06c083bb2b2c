// A day file read: how many images it has, and where the one at a position stands.
// Any bytes and any position may be lent; a place is one in the bytes that were lent.
// Each call checks the whole file, every image and the index, before it answers.
#![tactic(auto)]

ghost use Rattle.std.specs.Prelude.{◌≡◌};
ghost use Rattle.day.specs.Calls.{count_answer, image_refusal, image_answer, image_at};

use card::Refusal;
use day::Answer;

// How many images a file has.
pub fn count(file: &[u8]) -> Answer
    ensures { result ≡ count_answer file.now }
{
    day_told::answer_of(day_check::check(file), day_told::count_in(file))
}

fn check_position(file: &[u8], position: usize) -> Refusal
    ensures { result ≡ image_refusal file.now position }
{
    let past = day_limits::refuse_position(position, day_told::count_in(file));
    day_told::or_else(day_check::check(file), past)
}

// Where the image at a position starts.
pub fn image_start(file: &[u8], position: usize) -> Answer
    ensures { result ≡ image_answer file.now position }
{
    let refusal = check_position(file, position);
    if refusal.number != 0 {
        return Err(refusal);
    }
    Ok(position * 256)
}

// The image at a position, as a part of the file; an empty part where it is refused.
pub fn image_at<'a>(file: &'a [u8], position: usize) -> &'a [u8]
    ensures { result.now ≡ image_at file.now position }
{
    let refusal = check_position(file, position);
    if refusal.number != 0 {
        return &file[..0];
    }
    let at = position * 256;
    let end = at + 256;
    &file[at..end]
}
