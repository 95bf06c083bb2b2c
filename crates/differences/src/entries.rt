// One entry of the list, or 0 where nothing differs.
ghost use Rattle.std.specs.Prelude.{◌≡◌, ◌+◌, ◌*◌, ◌≤◌, length};
ghost use Rattle.differences.specs.Differences.{of_values, of_bytes};
ghost use Rattle.differences.specs.Steps.{entry_of, unlike_entry};

const ABSENT_IN_FIRST: u32 = 1 * 65536;

const ABSENT_IN_SECOND: u32 = 2 * 65536;

const LENGTHS_DIFFER: u32 = 3 * 65536;

const INDEX_DIFFERS: u32 = 4 * 65536;

const BYTE_DIFFERS: u32 = 5 * 65536;

fn word_of(kind: u32, tag: u8, place: usize) -> u32
    requires { (kind ≤ 1000000) × (place ≤ 255) }
    ensures { result ≡ kind + tag * 256 + place }
{
    kind + tag as u32 * 256 + place as u32
}

// Of two lengths that differ.
fn unlike_entry(tag: u8, first: usize, second: usize) -> u32
    ensures { result ≡ unlike_entry tag first second }
{
    if first == 0 {
        return word_of(ABSENT_IN_FIRST, tag, 0);
    }
    if second == 0 {
        return word_of(ABSENT_IN_SECOND, tag, 0);
    }
    word_of(LENGTHS_DIFFER, tag, 0)
}

// Of the two values of a tag; a part without a byte is that of an absent object.
pub(crate) fn object_entry(tag: u8, first: &[u8], second: &[u8]) -> u32
    requires { length first.now ≤ 28 }
    ensures { result ≡ entry_of (of_values tag first.now second.now) }
{
    if first.len() != second.len() {
        return unlike_entry(tag, first.len(), second.len());
    }
    let index = ground_parts::count_same(second, first);
    if index == first.len() {
        return 0;
    }
    word_of(INDEX_DIFFERS, tag, index)
}

// Of the two bytes of an address.
pub(crate) fn byte_entry(address: usize, first: u8, second: u8) -> u32
    requires { address ≤ 255 }
    ensures { result ≡ entry_of (of_bytes address first second) }
{
    if first == second {
        return 0;
    }
    word_of(BYTE_DIFFERS, 0, address)
}
