// What a card is that shows that one edition is not nested in another, and the theorems on it: that the inner takes it and the outer does not.
// No code but a row that the pieces share: the card is made by `example_card::example`, of the pieces in the crates `example_`.
// The theorems are of the definition; each piece's contract says that its answer is the definition's.
#![tactic(auto)]

use edition::Row;
use rules::Rule;

// A row that permits no length and requires nothing; beside it any value of the inner rule will do.
pub const PLAIN: Row = Row {
    required: false,
    rule: Rule::Text,
    lengths: 0,
};
