// The steps of a reading, in definitions: what is refused behind the objects, the table settled, the values at its places.
// No code: the crates above read an image. What a reading is, is the book's to say; here it is taken apart and put together again.
// A step is defined for any end and any refusal of an edition; with those of an image the steps make its reading.
#![tactic(auto)]
