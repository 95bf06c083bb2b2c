// What is amiss with an edition, clause by clause, and that it is told exactly where the edition is not well formed: the definitions and the theorems.
// No code but the finding's type: it is found by `report_answer::report`.
// The theorems are of the definition; each piece's contract says that its answer is the definition's.
#![tactic(auto)]

// The clause that fails: 0 none, well formed; 1 the set is empty, 2 it is not within 1 to 28; of row 8E 3 not required, 4 not {1}, 5 not raw;
// 6 another row is raw, 7 a birth row has not {8}, 8 an expiry row has not {4}; 9 the edition's number is 0. With 0 and 9 the row is 17, past the last.
#[derive(Clone, Copy)]
pub struct Finding {
    pub clause: u8,
    pub row: usize,
}
