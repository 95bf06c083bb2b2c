// What nesting is, what is answered on it, and that the decision is right: the definitions and the theorems.
// No code but the two answers' types: it is decided by `nesting_answer::nested`, and a value that shows a no is made by `nesting_witness::witness`.
// The theorems are of the definition; each piece's contract says that its answer is the definition's.
#![tactic(auto)]

// The clause that fails: 0 none, nested; 1 a length, 2 a value, 3 required, with the row; 4 the inner edition is not well formed, 5 the outer is not.
#[derive(Clone, Copy)]
pub struct Nesting {
    pub clause: u8,
    pub row: usize,
}

// A value by its length, its first byte, and the byte that all others are.
#[derive(Clone, Copy)]
pub struct Sample {
    pub length: u8,
    pub first: u8,
    pub rest: u8,
}
