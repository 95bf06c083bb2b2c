// What a rule asks of a value beyond its characters: a lead, a code, a birth date, an expiry, other than D.
// Any bytes may be lent; whether they are of the rule's characters, others have asked.
// A byte that is not there is taken as 0, which is in no code and no date.
#![tactic(auto)]

ghost use Rattle.std.specs.Prelude.{◌≡◌, false};
ghost use Rattle.rules.specs.Values.{is_lead, is_code, two, is_birth, is_expiry, is_not_d, by_sense, holds};

use rules::Rule;

fn is_lead(b: u8) -> bool
    ensures { result ≡ is_lead b }
{
    matches!(b, b'1' | b'3' | b'5')
}

fn is_code(b: u8) -> bool
    ensures { result ≡ is_code b }
{
    matches!(
        b,
        b'1' | b'9'
            | b'4'
            | b'6'
            | b'7'
            | b'8'
            | b'M'
            | b'X'
            | b'A'
            | b'C'
            | b'K'
            | b'L'
            | b'E'
            | b'N'
            | b'D'
            | b'F'
            | b'S'
            | b'P'
    )
}

// The number that two digits write.
fn two_of(tens: u8, ones: u8) -> u32
    ensures { result ≡ two tens ones }
{
    (u32::from(tens) * 10 + u32::from(ones)).saturating_sub(11 * 0x30)
}

fn is_birth(length: usize, day: u32, month: u32) -> bool
    ensures { result ≡ is_birth length day month }
{
    (length == 8) & (month <= 12) & (day <= 31) & ((month != 0) | (day == 0))
}

fn is_expiry(length: usize, month: u32) -> bool
    ensures { result ≡ is_expiry length month }
{
    (length == 4) & (month >= 1) & (month <= 12)
}

fn is_not_d(length: usize, first: u8) -> bool
    ensures { result ≡ is_not_d length first }
{
    !((length == 1) & (first == b'D'))
}

// What a rule asks beyond its characters, of a value that is a lead, a code, a birth date, an expiry, other than D or not.
fn by_sense(rule: Rule, lead: bool, code: bool, birth: bool, expiry: bool, other: bool) -> bool
    ensures { result ≡ by_sense rule lead code birth expiry other }
{
    match rule {
        Rule::Digits => true,
        Rule::Text => true,
        Rule::Lead => lead,
        Rule::Code => code,
        Rule::Birth => birth,
        Rule::Expiry => expiry,
        Rule::Raw => true,
        Rule::NotD => other,
    }
}

// Whether a rule asks for nothing beyond its characters.
pub fn is_plain(rule: Rule) -> bool
    ensures { result ≡ by_sense rule false false false false false }
{
    by_sense(rule, false, false, false, false, false)
}

// Whether a value has what its rule asks beyond its characters.
pub fn holds_for(rule: Rule, v: &[u8]) -> bool
    ensures { result ≡ holds rule v.now }
{
    let first = ground_parts::byte_at(v, 0);
    let leading = two_of(first, ground_parts::byte_at(v, 1));
    let next = two_of(ground_parts::byte_at(v, 2), ground_parts::byte_at(v, 3));
    by_sense(
        rule,
        is_lead(first),
        is_code(first),
        is_birth(v.len(), leading, next),
        is_expiry(v.len(), leading),
        is_not_d(v.len(), first),
    )
}
