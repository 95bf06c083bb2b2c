// The letters of DIN 66003, in which a card is written, and UTF-8, by definition; and what is proved of the two ways between them.
// No function stands here: `letters_spelled` and `letters_coded` do what is said, and promise it.
// Each goes as far as there are letters, and room for them; what is told is how many bytes were turned, and how many they became.
#![tactic(auto)]

// How many bytes were turned, and how many bytes they became.
#[derive(Clone, Copy)]
pub struct Turned {
    pub taken: usize,
    pub made: usize,
}
