// The position that the index of a day file tells of a number, found by halving.
// Any bytes may be lent as an index or a number. That the entries are in order, without which halving may pass one by, is the caller's to know.
// A number that is not 6 to 12 digits is told as one that no entry has: the answer is then how many entries there are.
#![tactic(auto)]

ghost use Rattle.std.specs.Prelude.{◌≡◌, ◌/◌, ◌≤◌, ◌<◌, length};
ghost use Rattle.std.specs.List.{list_all};
ghost use Rattle.rules.specs.Values.{is_digit};
ghost use Rattle.day.specs.Cards.{entry};
ghost use Rattle.day.specs.Index.{halved, told_at};
ghost use Rattle.day.specs.Calls.{number_formed, entries_in, position_in};

fn are_digits(bytes: &[u8]) -> bool
    ensures { result ≡ list_all is_digit bytes.now }
{
    bytes.iter().all(|b| b.is_ascii_digit())
}

// Whether some bytes are 6 to 12 digits.
fn is_number(bytes: &[u8]) -> bool
    ensures { result ≡ number_formed bytes.now }
{
    if bytes.len() < 6 {
        return false;
    }
    if bytes.len() > 12 {
        return false;
    }
    are_digits(bytes)
}

// The entry of a number at position 0, before which no card of that number comes.
fn key_of(number: &[u8]) -> [u8; 14]
    requires { length number.now ≤ 12 }
    ensures { result ≡ entry number.now 0 }
{
    let mut key = [0x20u8; 14];
    ground_room::put(&mut key, 0, number);
    key[12] = 0;
    key[13] = 0;
    key
}

// How many entries come before this one: between `low` and `high`, which each turn halves.
fn rank(index: &[u8], entry: &[u8]) -> usize
    ensures { result ≡ halved (length index.now / 14) entry.now (entries_in index.now) 0 (length index.now / 14) }
{
    let mut low = 0;
    let mut high = index.len() / 14;
    while low < high {
        let middle = low + (high - low) / 2;
        let at = middle * 14;
        let end = at + 14;
        if day_index::is_below(&index[at..end], entry) {
            low = middle + 1;
        } else {
            high = middle;
        }
    }
    low
}

// The position in the entry at a place, where it has the key's number.
fn told_at(index: &[u8], key: &[u8], k: usize) -> usize
    requires { length key.now ≡ 14 }
    ensures { result ≡ told_at key.now (entries_in index.now) k }
{
    let count = index.len() / 14;
    if k >= count {
        return count;
    }
    let at = k * 14;
    let end = at + 12;
    if !ground_parts::is_same(&index[at..end], &key[..12]) {
        return count;
    }
    usize::from(index[end]) * 256 + usize::from(index[end + 1])
}

// The position in the first entry that has this number, or the count where none has.
pub fn first_of(index: &[u8], number: &[u8]) -> usize
    ensures { result ≡ position_in index.now number.now }
{
    if !is_number(number) {
        return index.len() / 14;
    }
    let key = key_of(number);
    let k = rank(index, &key);
    told_at(index, &key, k)
}
