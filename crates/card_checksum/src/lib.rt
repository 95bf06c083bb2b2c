// The checksum: the exclusive or of all bytes of a span.
// Any span may be lent; which one the checksum stands for is reader's and writer's.
// It goes by words of four bytes, and by single bytes for the odd rest.
#![tactic(auto)]

ghost use Rattle.std.specs.Prelude.{◌≡◌, ◌*◌, ◌/◌, ◌%◌, length, take};
ghost use Rattle.std.specs.Int.Bits.{bit_xor};
ghost use Rattle.card.specs.Layout.{xor_all};

// The word of four bytes, the first byte lowest.
fn word_of(first: u8, second: u8, third: u8, fourth: u8) -> u32
    ensures { (result % 256 ≡ first) × (result / 256 % 256 ≡ second) × (result / 65536 % 256 ≡ third) × (result / 16777216 ≡ fourth) }
{
    first as u32 + second as u32 * 256 + third as u32 * 65536 + fourth as u32 * 16777216
}

// The exclusive or of a word's four bytes.
fn fold_word(word: u32) -> u8
    ensures { result ≡ bit_xor (bit_xor (bit_xor (word % 256) (word / 256 % 256)) (word / 65536 % 256)) (word / 16777216) }
{
    (word % 256) as u8
        ^ (word / 256 % 256) as u8
        ^ (word / 65536 % 256) as u8
        ^ (word / 16777216) as u8
}

// The exclusive or of the bytes of all whole words, word by word.
fn fold_words(span: &[u8]) -> u8
    ensures { result ≡ xor_all (take (length span.now / 4 * 4) span.now) }
{
    let mut folded = 0u32;
    for word in span.chunks_exact(4) {
        folded = folded ^ word_of(word[0], word[1], word[2], word[3]);
    }
    fold_word(folded)
}

// The exclusive or of all bytes of a span: of its words of four bytes, and of the odd rest after them.
pub fn checksum(span: &[u8]) -> u8
    ensures { result ≡ xor_all span.now }
{
    let mut sum = fold_words(span);
    let whole = span.len() / 4 * 4;
    for byte in &span[whole..] {
        sum = sum ^ *byte;
    }
    sum
}
