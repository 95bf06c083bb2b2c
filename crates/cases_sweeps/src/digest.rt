// Digests of what calls answer and leave in their rooms.
const FACTOR: u64 = 16777619;

const PRIME: u64 = 549755813881;

// A number folded into a digest.
fn fold(digest: u64, number: u64) -> u64 {
    (digest % PRIME * FACTOR + number % PRIME) % PRIME
}

// An answer, then bytes in words of four.
pub(crate) fn fold_call(digest: u64, answer: u64, room: &[u8]) -> u64 {
    let mut folded = fold(digest, answer);
    for word in room.chunks(4) {
        folded = fold(folded, cases::word_of(word) as u64);
    }
    folded
}

// A reading, with the record that it leaves.
pub(crate) fn fold_reading(digest: u64, table: &[u8], image: &[u8]) -> u64 {
    let mut record = [0xA5u8; 479];
    let answer = kvk::kvk_read(table, image, &mut record);
    fold_call(digest, answer, &record)
}
