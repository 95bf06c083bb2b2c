// What the calls on one card answer, and what they leave in the room that they are lent: definitions alone.
// The calls stand in the crates above: reading, writing, the shipped tables, the number put on a record, the places.
// 20 for a room comes before all that is amiss with the card.
#![tactic(auto)]
