// The fresher of two cards: which is valid later, by how many months, and its family name as a part of its image, not copied.
// Any edition and any two images may be lent; whether "later" is still valid today is the caller's to ask: no date is looked at but the cards'.
// With a refusal the card named is the first, the distance 0 and the part empty. `name` cuts whatever images it is lent with an answer.
#![tactic(auto)]

ghost use Rattle.std.specs.Prelude.{◌≡◌};
ghost use Rattle.fresher.specs.Comparing.{fresher_of, name_of};

use edition::Edition;
use fresher::Fresher;

// Compares two cards under one edition.
pub fn compare(edition: Edition, first: &[u8], second: &[u8]) -> Fresher
    ensures { result ≡ fresher_of edition first.now second.now }
{
    let a = fresher_look::look(edition, first);
    let b = fresher_look::look(edition, second);
    fresher_weigh::weigh(fresher_look::is_dated(edition), a, b)
}

// The family name's part of the image that a comparison names.
pub fn name<'a>(first: &'a [u8], second: &'a [u8], fresher: Fresher) -> &'a [u8]
    ensures { result.now ≡ name_of fresher first.now second.now }
{
    if fresher.second {
        return lookup::cut(second, fresher.start, fresher.length);
    }
    lookup::cut(first, fresher.start, fresher.length)
}

// The family name of the fresher card, as a part of its image.
pub fn fresher_name<'a>(edition: Edition, first: &'a [u8], second: &'a [u8]) -> &'a [u8]
    ensures { result.now ≡ name_of (fresher_of edition first.now second.now) first.now second.now }
{
    let fresher = compare(edition, first, second);
    name(first, second, fresher)
}
