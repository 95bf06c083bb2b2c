// A number looked up in a day file.
// Any bytes may be lent as a file or a number.
// The search is in the file's own index, which is checked first: then it is in order, and that of the images.
#![tactic(auto)]

ghost use Rattle.std.specs.Prelude.{◌≡◌};
ghost use Rattle.day.specs.Calls.{find_answer};

use day::Answer;

// The position of the first card that has a number.
pub fn find(file: &[u8], number: &[u8]) -> Answer
    ensures { result ≡ find_answer file.now number.now }
{
    let refusal = day_check::check(file);
    if refusal.number != 0 {
        return Err(refusal);
    }
    let count = day_told::count_in(file);
    let start = count * 256;
    let end = count * 270;
    let position = day_search::first_of(&file[start..end], number);
    day_told::answer_of(day_limits::refuse_position(position, count), position)
}
