// The months of a validity, and how far two of them are apart.
// Any bytes and any two numbers of months may be lent. Whether a validity is one is the reader's to say.
// Bytes that are no digits have months too: what is below '0' counts 0.
#![tactic(auto)]

ghost use Rattle.std.specs.Prelude.{◌≡◌, ◌+◌, ◌*◌, ◌-◌, ◌≤◌, pos, ◌-ℤ◌};
ghost use Rattle.fresher.specs.Comparing.{digit_at, months_of};

// What a digit stands for; below '0' it is 0.
fn digit(b: u8) -> u16
    ensures { result ≡ b - 48 }
{
    if b < 48 { 0 } else { b as u16 - 48 }
}

fn digit_at(value: &[u8], i: usize) -> u16
    ensures value { result ≡ digit_at value.now i }
    ensures upper_bound { result ≤ 207 }
{
    if i < value.len() { digit(value[i]) } else { 0 }
}

// Two digits as a number.
fn two(tens: u16, ones: u16) -> u16
    requires { (tens ≤ 207) × (ones ≤ 207) }
    ensures { result ≡ tens * 10 + ones }
{
    tens * 10 + ones
}

// Months since the end of 1999 of month and year, two digits each; any bytes have some.
pub fn months_of(value: &[u8]) -> u16
    ensures { result ≡ months_of value.now }
{
    let month = two(digit_at(value, 0), digit_at(value, 1));
    let year = two(digit_at(value, 2), digit_at(value, 3));
    year * 12 + month
}

// From a to b, below zero if b is less.
pub fn apart(a: u16, b: u16) -> i32
    ensures { result ≡ pos b -ℤ pos a }
{
    (b as i32) - (a as i32)
}
