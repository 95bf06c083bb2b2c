// Theorems only: no public function has a second answer.
// That an answer is the right one is the promise's; here it is only said that the promise leaves no other.
// The statements are over the contract as the toolchain names it (`Reads.Post`), not over a copy.
#![tactic(auto)]
