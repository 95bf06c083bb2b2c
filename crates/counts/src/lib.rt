// Theorems only: facts about the definitions that a reader can count in document 01, in one table, specs/Counts.antt.
// They are computed from the definitions and cite no code.
// A mistake made alike in a definition and in the code that is proved to meet it would change a count.
#![tactic(auto)]
