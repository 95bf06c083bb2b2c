// How long the objects of a lent record are: each of them, and all together, and what is refused of that.
// Any bytes may be lent; what the rows say of each length is asked elsewhere.
// A record has no places: where 11 is told, its place is 0. It is told before 4.
#![tactic(auto)]

ghost use Rattle.std.specs.Prelude.{◌≡◌, cond, map, ◌+◌, ◌≤◌, eqb, length};
ghost use Rattle.card.specs.Content.{content_of};
ghost use Rattle.card.specs.Sums.{sums_refusal, nowhere};
ghost use Rattle.card.specs.Refusals.{or_else};
ghost use Rattle.wire_records.specs.Records.{lent_record};
ghost use Rattle.object_sizes.specs.Sizes.{size_with, size_of, size_refusal, sizes_refusal};

use card::Refusal;

// The lengths of the sixteen values of a record of 479 bytes; all 0 of another size.
pub fn lengths_of(bytes: &[u8]) -> [u8; 16]
    ensures { result ≡ map length (content_of (lent_record bytes.now)).values }
{
    let mut lengths = [0u8; 16];
    if bytes.len() != 479 {
        return lengths;
    }
    for i in 0..16 {
        let at = 14 + i * 29;
        lengths[i] = bytes[at];
    }
    lengths
}

// How many bytes an object takes in the template, by the length of its value.
fn size_with(n: u8) -> usize
    ensures upper_bound { result ≤ 257 }
    ensures value { result ≡ size_with n }
{
    let count = n as usize;
    if count == 0 { 0 } else { count + 2 }
}

// How many bytes all objects take, by the lengths of their values.
pub fn size_of(lengths: [u8; 16]) -> usize
    ensures upper_bound { result ≤ 4112 }
    ensures value { result ≡ size_of lengths }
{
    let mut size = 0;
    for n in &lengths {
        size += size_with(*n);
    }
    size
}

// 11: the names, then the town.
fn check_sums(lengths: [u8; 16]) -> Refusal
    ensures { result ≡ sums_refusal nowhere lengths }
{
    let starts = [0u8; 16];
    card_sums::check_sums(starts, lengths)
}

// 4: the template's length.
fn check_size(size: usize) -> Refusal
    requires { size ≤ 4112 }
    ensures { result ≡ size_refusal size }
{
    let length = size + 3;
    if (length >= 70) & (length <= 212) {
        Refusal::NONE
    } else {
        Refusal::new(4, 0, 0)
    }
}

// The first of two refusals.
fn first_of(a: Refusal, b: Refusal) -> Refusal
    ensures { result ≡ or_else a b }
{
    if a.number == 0 { b } else { a }
}

// The first refusal of what the objects are together.
pub fn check_sizes(lengths: [u8; 16]) -> Refusal
    ensures { result ≡ sizes_refusal lengths }
{
    let sums = check_sums(lengths);
    let template = check_size(size_of(lengths));
    first_of(sums, template)
}
