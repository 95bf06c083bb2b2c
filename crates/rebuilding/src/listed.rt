// What a list names.
ghost use Rattle.std.specs.Prelude.{◌≡◌};
ghost use Rattle.rebuilding.specs.Rebuilding.{tag_in, names_tag, names_address};

// The tag of an entry.
fn tag_of(entry: u32) -> u8
    ensures { result ≡ tag_in entry }
{
    (entry / 256 % 256) as u8
}

pub(crate) fn names_tag(entries: &[u32], tag: u8) -> bool
    ensures { result ≡ names_tag entries.now tag }
{
    for entry in entries {
        if tag_of(*entry) == tag {
            return true;
        }
    }
    false
}

pub(crate) fn names_address(entries: &[u32], address: u8) -> bool
    ensures { result ≡ names_address entries.now address }
{
    let entry = 5 * 65536 + address as u32;
    entries.contains(&entry)
}
