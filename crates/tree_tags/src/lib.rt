// Whether a tag is none, and whether the value behind it is a list of objects.
// Any byte may be handed over. What stands behind the tag is the caller's.
// A tag whose low five bits are all ones would go on in a second byte: it is none here.
#![tactic(auto)]

ghost use Rattle.std.specs.Prelude.{◌≡◌};
ghost use Rattle.tree.specs.Heads.{bad_tag, is_list};

// Whether a byte is no tag.
pub fn is_bad(tag: u8) -> bool
    ensures { result ≡ bad_tag tag }
{
    (tag == 0) | (tag & 0x1F == 0x1F)
}

// Whether the value is a list of objects.
pub fn is_list(tag: u8) -> bool
    ensures { result ≡ is_list tag }
{
    tag & 0x20 != 0
}
