// What the lengths of three objects are that their rows permit and whose sum fits, and of all such the ones that take the fewest bytes, or the most.
// No code but the type of three lengths: they are chosen by `choosing_least::choose`.
// The theorems are of the definition: where any three lengths fit, those chosen do, with the fewest bytes or the most.
#![tactic(auto)]

// The lengths of three objects, 0 of an absent one.
#[derive(Clone, Copy)]
pub struct Three {
    pub first: u8,
    pub second: u8,
    pub third: u8,
}
