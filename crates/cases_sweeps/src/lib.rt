// The kinds V, M, O and X of stored cases: sweeps, a call with each value of a byte, told by a digest of what they answer.
// What a case and an answer look like is for `cases`; each function answers whether its case was whole.
// Digest and checksum are made here, as `second/README.md` gives them, and not by the library.
#![tactic(auto)]

mod digest;
mod images;
mod others;

pub use images::{run_pair_sweep, run_sweep};
pub use others::{run_record_sweep, run_table_sweep};
