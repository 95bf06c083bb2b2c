// Whether some words are the listing of some bytes.
// Any bytes and words may be lent. What the bytes are put together from is the caller's.
// Bytes that are refused have no listing, so no words are theirs.
#![tactic(auto)]

ghost use Rattle.std.specs.Prelude.{◌≡◌};
ghost use Rattle.tree_back.specs.Glue.{same_tree};

pub fn same_tree(bytes: &[u8], words: &[u16]) -> bool
    ensures { result ≡ same_tree bytes.now words.now }
{
    let mut room = [0u16; 8192];
    let Ok(count) = tree_list::list_tree(bytes, &mut room) else {
        return false;
    };
    let end = count as usize * 4;
    &room[..end] == words
}
