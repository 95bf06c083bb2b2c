// 11: how long the objects of a group may be together, by where the sixteen values start and how long they are.
// Any starts and lengths may be asked about; that they are those of a card is the caller's.
// Where all starts are 0, as in a record, the place told is 0.
#![tactic(auto)]

ghost use Rattle.std.specs.Prelude.{◌≡◌, true, ◌&&◌, leb, get_or, ◌-◌, ◌≤◌};
ghost use Rattle.card.specs.Sums.{group_refusal, sums_refusal, tag_before};
ghost use Rattle.card.specs.Rules.{first_present, present, sum_fits};

use card::Refusal;

// 1 for an object that is present, 0 for an absent one.
fn present_of(length: usize) -> usize
    ensures { result ≡ present length }
{
    if length == 0 { 0 } else { 1 }
}

fn sum_fits(alone: bool, a: usize, b: usize, c: usize) -> bool
    ensures { result ≡ sum_fits alone a b c }
{
    let count = present_of(a) + present_of(b) + present_of(c);
    if count <= 1 {
        return alone;
    }
    if (a > 27) | (b > 27) | (c > 27) {
        return false;
    }
    let sum = a + b + c;
    if count == 2 { sum <= 27 } else { sum <= 26 }
}

// Whether title, given name and name prefix are short enough together.
fn names_fit(title: usize, given: usize, prefix: usize) -> bool
    ensures { result ≡ sum_fits (leb title 15 && leb given 28 && leb prefix 15) title given prefix }
{
    let alone = (title <= 15) & (given <= 28) & (prefix <= 15);
    sum_fits(alone, title, given, prefix)
}

// Whether country, postal code and town are short enough together.
fn town_fits(country: usize, postal: usize, town: usize) -> bool
    ensures { result ≡ sum_fits true country postal town }
{
    sum_fits(true, country, postal, town)
}

// The first object that is present, of those from row k on; 16 where there is none.
fn first_present(lengths: [u8; 16], k: usize) -> usize
    requires { k ≤ 16 }
    ensures { result ≡ first_present k lengths }
{
    for i in k..16 {
        if lengths[i] != 0 {
            return i;
        }
    }
    16
}

// Where the tag of a value stands; 0 where there is no room for it.
fn tag_before(start: usize) -> usize
    ensures { result ≡ start - 2 }
{
    if start < 2 { 0 } else { start - 2 }
}

// Where row k's value starts; 0 past the last row.
fn start_of(starts: [u8; 16], k: usize) -> usize
    ensures { result ≡ get_or starts k 0 }
{
    if k < 16 { starts[k] as usize } else { 0 }
}

// A sum is too large: the first object present from row k on is named.
fn refuse_group(starts: [u8; 16], lengths: [u8; 16], k: usize) -> Refusal
    requires { k ≤ 16 }
    ensures { result ≡ group_refusal (tag_before starts) lengths k }
{
    let row = first_present(lengths, k);
    Refusal::new(
        11,
        tag_before(start_of(starts, row)),
        edition_tags::tag_of(row),
    )
}

// The refusal of the names, or else of the town, by where the sixteen values start and how long they are. Where all starts are 0, the place is 0.
pub fn check_sums(starts: [u8; 16], lengths: [u8; 16]) -> Refusal
    ensures { result ≡ sums_refusal (tag_before starts) lengths }
{
    if !names_fit(
        lengths[6] as usize,
        lengths[7] as usize,
        lengths[8] as usize,
    ) {
        return refuse_group(starts, lengths, 6);
    }
    if !town_fits(
        lengths[12] as usize,
        lengths[13] as usize,
        lengths[14] as usize,
    ) {
        return refuse_group(starts, lengths, 12);
    }
    Refusal::none()
}
