// Parts that are read: the byte at a place, how far two parts agree, whether they are the same.
// Any parts and places may be lent.
// The byte past the end of a part is 0.
#![tactic(auto)]

ghost use Rattle.std.specs.Prelude.{◌≡◌, get_or};
ghost use Rattle.ground.specs.Lists.{agree, same_list};

// The byte at i, and 0 past the end.
pub fn byte_at(part: &[u8], i: usize) -> u8
    ensures { result ≡ get_or part.now i 0 }
{
    part.get(i).copied().unwrap_or(0)
}

// How many bytes at the head of a part are those wanted. Both are cut to one length first, so that each turn tests one end.
pub fn count_same(part: &[u8], want: &[u8]) -> usize
    ensures { result ≡ agree want.now part.now }
{
    let n = part.len().min(want.len());
    part[..n]
        .iter()
        .zip(&want[..n])
        .take_while(|(p, w)| p == w)
        .count()
}

// Whether two parts are the same. With no way out of the loop it takes many bytes at a time.
pub fn is_same(part: &[u8], want: &[u8]) -> bool
    ensures { result ≡ same_list part.now want.now }
{
    if part.len() != want.len() {
        return false;
    }
    let mut difference = 0u8;
    for (p, w) in part.iter().zip(want) {
        difference |= *p ^ *w;
    }
    difference == 0
}
