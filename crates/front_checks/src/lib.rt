// What a front is refused with before any line is written.
// Any record and any size of a room may be asked about. Printing is `front_print`'s.
// What writing under terminal would refuse is told before the room's size, and that before 30, 31 and 32.
#![tactic(auto)]

ghost use Rattle.std.specs.Prelude.{◌≡◌};
ghost use Rattle.card.specs.Content.{content_of};
ghost use Rattle.front.specs.Refusing.{lines_refusal, print_refusal};

use card::{Record, Refusal};
use edition::Edition;

// 30, 31, 32.
fn refuse_lines(content: Record, fund: bool) -> Refusal
    ensures { result ≡ lines_refusal fund (content_of content) }
{
    let addition = front_shown::shown_addition(content.objects[5]);
    if addition == b' ' {
        return Refusal::new(30, 0, 0);
    }
    let validity = content.objects[15];
    if validity.length == 0 {
        return Refusal::new(31, 0, 0);
    }
    if front_marks::has_underscores(content, fund) {
        return Refusal::new(32, 0, 0);
    }
    Refusal::none()
}

// The first refusal of a front, in a room of `size` bytes.
pub fn refuse(content: Record, fund: bool, size: usize) -> Refusal
    ensures { result ≡ print_refusal fund (content_of content) size }
{
    let own = checks::check_content(Edition::terminal(), content);
    if own.number != 0 {
        return own;
    }
    if size != 112 {
        return Refusal::new(20, 0, 0);
    }
    refuse_lines(content, fund)
}
