// The value rules: what a rule says of the bytes of a value; types, definitions and laws.
// There is no code here: judging stands in the crates above. Whether the length is permitted is the edition's.
// A byte outside the rule's characters is told before all else, even in front of a date that makes no sense.
#![tactic(auto)]

#[derive(Clone, Copy)]
pub enum Rule {
    Digits,
    Text,
    Lead,
    Code,
    Birth,
    Expiry,
    Raw,
    // Text other than the single letter D.
    NotD,
}

// What is wrong with a value; one that its rule takes is `Ok(())`.
#[derive(Clone, Copy)]
pub enum Fault {
    // The index of the first byte outside the rule's characters.
    Outside(usize),
    // The characters are right; the lead, the code, the birth or the expiry is not, or the value is the single D that its rule leaves out.
    Breaks,
}
