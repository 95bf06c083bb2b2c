// What is refused behind the objects: the checksum, the filler, the last byte.
// Any bytes and any end of the template may be lent; that the end is the template's is the caller's to see to.
// A template that no card has is told as 1.
#![tactic(auto)]

ghost use Rattle.std.specs.Prelude.{◌≡◌, ◌-◌, ◌≤◌, length};
ghost use Rattle.card.specs.Refusals.{refuse};
ghost use Rattle.card.specs.Frame.{tail_part};
ghost use Rattle.reader_steps.specs.Steps.{checksum_at, tail_at, end_at};

use card::Refusal;

// 13: the checksum is the template's last byte.
fn check_checksum(image: &[u8], end: usize) -> Refusal
    requires { (length image.now ≡ 256) × (101 ≤ end) × (end ≤ 253) }
    ensures { result ≡ checksum_at image.now end }
{
    let last = end - 1;
    if image[last] != card_checksum::checksum(&image[30..last]) {
        Refusal::new(13, last, 0)
    } else {
        Refusal::none()
    }
}

// 14 to 17, by the part in which the wrong address lies.
fn refuse_tail(end: usize, at: usize) -> Refusal
    requires { (101 ≤ end) × (end ≤ 253) × (end ≤ at) }
    ensures { result ≡ refuse (tail_part (255 - end) (at - end)) at 0 }
{
    Refusal::new(frame_parts::number_tail(256 - end, at - end), at, 0)
}

// 14 to 17: the filler, then the last byte.
fn check_filler(image: &[u8], end: usize) -> Refusal
    requires { (length image.now ≡ 256) × (101 ≤ end) × (end ≤ 253) }
    ensures { result ≡ tail_at image.now end }
{
    let right = end + frame_tail::count_tail(&image[end..]);
    if right != 256 {
        return refuse_tail(end, right);
    }
    if !card_ends::allows_last(image[0], image[255]) {
        return refuse_tail(end, 255);
    }
    Refusal::none()
}

// 13, then 14 to 17, behind a template that ends before `end`.
pub fn check_end(image: &[u8], end: usize) -> Refusal
    ensures { result ≡ end_at image.now end }
{
    if (image.len() == 256) & (end >= 101) & (end <= 253) {
        let checksum = check_checksum(image, end);
        if checksum.number != 0 {
            return checksum;
        }
        return check_filler(image, end);
    }
    Refusal::new(1, 0, 0)
}
