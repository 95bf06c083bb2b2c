// Whether a rule takes a value, or what is wrong with it.
// Any bytes may be lent. Whether the length is permitted is the edition's; the index told counts within the value.
// A byte outside the rule's characters is told before all else, even in front of a date that makes no sense.
#![tactic(auto)]

ghost use Rattle.std.specs.Prelude.{◌≡◌};
ghost use Rattle.ground.specs.Lists.{leading};
ghost use Rattle.rules_judge.specs.Characters.{characters_of, has_byte};
ghost use Rattle.rules.specs.Values.{by_class, takes, judged, verdict_told};

use rules::{Fault, Rule};

// The characters of a rule as bits: bit b of `low` for byte b, bit b - 64 of `high` for byte b up to 127; `rest` for those above.
#[derive(Clone, Copy)]
struct Characters {
    low: u64,
    high: u64,
    rest: bool,
}

const DIGITS: Characters = Characters {
    low: 0x03ff_0000_0000_0000,
    high: 0,
    rest: false,
};

const TEXT: Characters = Characters {
    low: 0x03ff_ebc1_0000_0000,
    high: 0x7fff_fffe_bfff_fffe,
    rest: false,
};

const ANY: Characters = Characters {
    low: 0xffff_ffff_ffff_ffff,
    high: 0xffff_ffff_ffff_ffff,
    rest: true,
};

fn by_class(rule: Rule, digits: Characters, text: Characters, any: Characters) -> Characters
    ensures { result ≡ by_class rule digits text any }
{
    match rule {
        Rule::Digits => digits,
        Rule::Text => text,
        Rule::Lead => digits,
        Rule::Code => text,
        Rule::Birth => digits,
        Rule::Expiry => digits,
        Rule::Raw => any,
        Rule::NotD => text,
    }
}

fn characters_of(rule: Rule) -> Characters
    ensures { result ≡ characters_of rule }
{
    by_class(rule, DIGITS, TEXT, ANY)
}

fn has(characters: Characters, b: u8) -> bool
    ensures { result ≡ has_byte characters b }
{
    let word = if b < 64 {
        characters.low
    } else {
        characters.high
    };
    if b < 128 {
        (word >> (b % 64)) % 2 == 1
    } else {
        characters.rest
    }
}

// How many bytes at the head of a value are of the rule's characters.
fn count_taken(rule: Rule, v: &[u8]) -> usize
    ensures { result ≡ leading (takes rule) v.now }
{
    let characters = characters_of(rule);
    for (i, b) in v.iter().enumerate() {
        if !has(characters, *b) {
            return i;
        }
    }
    v.len()
}

// Whether a rule takes a value, or what is wrong with it.
pub fn judge(rule: Rule, v: &[u8]) -> Result<(), Fault>
    ensures { verdict_told result ≡ verdict_told (judged rule v.now) }
{
    let n = count_taken(rule, v);
    if n < v.len() {
        return Err(Fault::Outside(n));
    }
    if rules_sense::is_plain(rule) {
        return Ok(());
    }
    if rules_sense::holds_for(rule, v) {
        Ok(())
    } else {
        Err(Fault::Breaks)
    }
}
