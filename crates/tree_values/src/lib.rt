// How many plain bytes an object takes: a list takes none.
// Any tag and length may be handed over. Whether the tag is one is the caller's.
// Bit '20' alone says that an object is a list.
#![tactic(auto)]

ghost use Rattle.std.specs.Prelude.{◌≡◌};
ghost use Rattle.tree_back.specs.Glue.{value_size};

pub fn value_size(tag: u16, n: u16) -> usize
    ensures { result ≡ value_size tag n }
{
    if tag & 0x20 != 0 {
        return 0;
    }
    n as usize
}
