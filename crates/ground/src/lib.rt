// What can be said of bytes without a word of cards: lists, runs, stores, pieces, rooms; definitions and their laws.
// There is no code here: what reads a part or puts into a room stands in the crates above.
// A room is a list of bytes that keeps its length, whatever is put into it.
#![tactic(auto)]
