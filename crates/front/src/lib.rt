// Theorems and definitions only: the four lines of a card's front, what a front is refused with, and what is promised of it.
// The code stands in the crates `front_..` above it; `front_print::print` is what callers use.
// Of a value that is longer than its places the definitions say what is put too, so that each piece of the code takes any record.
#![tactic(auto)]
