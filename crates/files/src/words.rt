// Words of the command line.
ghost use Rattle.std.specs.Prelude.{◌≡◌};
ghost use Rattle.files.specs.Words.{edition_named, chosen};

// The number of a shipped edition by its name: 1 terminal, 2 issue, 0 for another word.
pub fn edition_named(word: &[u8]) -> u64
    ensures { result ≡ edition_named word.now }
{
    if ground_parts::is_same(word, b"terminal") {
        return 1;
    }
    if ground_parts::is_same(word, b"issue") {
        return 2;
    }
    0
}

// What a listing is read under, by whether there is a first argument and by its bytes: 1 terminal, 2 issue, 0 neither.
pub fn choose(given: bool, word: &[u8]) -> u64
    ensures { result ≡ chosen given word.now }
{
    if !given {
        return ISSUE;
    }
    if ground_parts::is_same(word, b"terminal") {
        return TERMINAL;
    }
    NEITHER
}

const NEITHER: u64 = 0;

const TERMINAL: u64 = 1;

const ISSUE: u64 = 2;
