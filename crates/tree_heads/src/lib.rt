// What stands at a tag: an object's tag, where its value starts and how long it is, or what is wrong with it.
// Any bytes, any address and any number of levels may be handed over. What the value holds is the caller's.
// Where there is no byte, the address is past 4,096 or more than six levels are left, the answer is 0 at 0.
#![tactic(auto)]

ghost use Rattle.std.specs.Prelude.{◌≡◌, ◌-◌, ◌<◌, ◌≤◌, length};
ghost use Rattle.tree.specs.Heads.{head_at, head_for};

use tree::{Head, Refusal};
use tree_tags::is_bad;

// The object whose tag, at the address `at`, the bytes begin with: they go up to the enclosing end. So many levels are left.
fn read_head(bytes: &[u8], at: usize, left: usize) -> Result<Head, Refusal>
    requires { (0 < length bytes.now) × ((at ≤ 4096) × (left ≤ 6)) }
    ensures { result ≡ head_at bytes.now at (7 - left) }
{
    let tag = bytes[0];
    if is_bad(tag) {
        return Err(Refusal::new(50, at as u16));
    }
    if left == 0 {
        return Err(Refusal::new(53, at as u16));
    }
    let Ok(field) = lengths_read::read_length(&bytes[1..]) else {
        return Err(Refusal::new(51, (at + 1) as u16));
    };
    let start = field.used as usize + 1;
    let length = field.length as usize;
    if bytes.len() - start < length {
        return Err(Refusal::new(52, at as u16));
    }
    Ok(Head { tag, start, length })
}

// The same for any bytes, address and levels.
#[tactic(auto, unfolding(tree::specs::Heads::head_for))]
pub fn head_of(bytes: &[u8], at: usize, left: usize) -> Result<Head, Refusal>
    ensures { result ≡ head_for bytes.now at left }
{
    if bytes.is_empty() || 4096 < at || 6 < left {
        return Err(Refusal::new(0, 0));
    }
    read_head(bytes, at, left)
}
