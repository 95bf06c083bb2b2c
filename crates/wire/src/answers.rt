// A refusal as one number, alone or with the value of a call.
ghost use Rattle.std.specs.Prelude.{◌≡◌};
ghost use Rattle.wire.specs.Answers.{packed, valued};

use card::Refusal;

pub fn pack(refusal: Refusal) -> u64
    ensures { result ≡ packed refusal }
{
    let place = (refusal.place % 256) as u64;
    let ends = (refusal.shortest as u64) * (1 << 24) + (refusal.longest as u64) * (1 << 32);
    refusal.number as u64 + place * (1 << 8) + (refusal.tag as u64) * (1 << 16) + ends
}

// A refusal and the value of a call, of which the last 24 bits are told.
pub fn pack_value(refusal: Refusal, value: usize) -> u64
    ensures { result ≡ valued refusal value }
{
    let last = (value % (1 << 24)) as u64;
    pack(refusal) + last * (1 << 40)
}
