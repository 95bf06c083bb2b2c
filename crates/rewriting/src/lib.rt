// Rewriting a card byte by byte: the check of anyone's plan, whether a card can be pulled at any time under it.
// Any edition, images and steps may be lent; who made the plan, and how, is the caller's.
// A state is looked at after each step: touching the new image early and leaving it again is fine, and so is passing the old one.
#![tactic(auto)]

mod states;

ghost use Rattle.std.specs.Prelude.{◌≡◌, length};
ghost use Rattle.rewriting.specs.Checking.{sizes_refusal, input_refusal, checked};

use card::Refusal;
use edition::Edition;

#[derive(Clone, Copy)]
pub struct Checked {
    pub refusal: Refusal,
    pub safe: bool,
}

// 20, where one of the two images has not 256 bytes.
pub fn refuse_sizes(old: usize, new: usize) -> Refusal
    ensures { result ≡ sizes_refusal old new }
{
    if old != 256 {
        return Refusal::new(20, 0, 0);
    }
    if new != 256 {
        return Refusal::new(20, 0, 0);
    }
    Refusal::none()
}

// 20, 2, then the new image's own refusal, where the old one has `size` bytes.
pub fn refuse_input(edition: Edition, size: usize, new: &[u8]) -> Refusal
    ensures { result ≡ input_refusal edition size new.now }
{
    let refusal = refuse_sizes(size, new.len());
    if refusal.number != 0 {
        return refusal;
    }
    reader_places::places(edition, new).refusal
}

// Whether a plan ends in the new image, and every state on the way is the old image, the new one, or one that the edition refuses.
// A step is its address times 256, and its byte.
pub fn check_plan(edition: Edition, old: &[u8], new: &[u8], steps: &[u32]) -> Checked
    ensures { result ≡ checked edition old.now new.now steps.now }
{
    let refusal = refuse_input(edition, old.len(), new);
    if refusal.number != 0 {
        return Checked {
            refusal,
            safe: false,
        };
    }
    if steps.len() > 257 {
        return Checked {
            refusal: Refusal::new(60, 0, 0),
            safe: false,
        };
    }
    Checked {
        refusal: Refusal::none(),
        safe: states::run(edition, old, new, steps),
    }
}
