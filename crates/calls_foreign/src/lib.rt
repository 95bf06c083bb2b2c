// The calls on foreign cards: a length field, the tree of some bytes, and the bytes of a tree; each answer as one number.
// Any bytes and words may be lent.
// Nothing of our own card stands in them: no edition, no image of 256 bytes.
#![tactic(auto)]

ghost use Rattle.std.specs.Prelude.{◌≡◌};
ghost use Rattle.lengths.specs.Lengths.{length_read, length_told};
ghost use Rattle.tree.specs.Answers.{tree_answer, tree_room};
ghost use Rattle.calls_foreign.specs.Foreign.{packed_length, packed_tree, packed_back, PackedBack};

use lengths::ToldLength;
use tree::Refusal;
use tree_back::BackError;

fn pack_length(field: ToldLength) -> u64
    ensures { result ≡ packed_length field }
{
    field.number as u64 + (field.length as u64) * (1 << 40) + (field.used as u64) * (1 << 56)
}

// Reads the length field at the head of some bytes: the length in bits 40 to 55, the bytes used in bits 56 to 63.
pub fn length(bytes: &[u8]) -> u64
    ensures { result ≡ packed_length (length_told (length_read bytes.now)) }
{
    pack_length(lengths_read::told(lengths_read::read_length(bytes)))
}

fn pack_tree(answer: Result<u16, Refusal>) -> u64
    ensures { result ≡ packed_tree answer }
{
    match answer {
        Ok(count) => (count as u64) * (1 << 40),
        Err(e) => e.number as u64 + (e.place as u64) * (1 << 40),
    }
}

// Lists the objects of some bytes, four words each: tag, depth, address, length.
pub fn tree(bytes: &[u8], room: &mut [u16]) -> u64
    ensures value { result ≡ packed_tree (tree_answer bytes.now room.old) }
    ensures room_after { room.new ≡ tree_room bytes.now room.old }
{
    pack_tree(tree_list::list_tree(bytes, room))
}

fn pack_back(answer: Result<u16, BackError>) -> u64
    ensures { result ≡ packed_back answer }
{
    match answer {
        Ok(size) => (size as u64) * (1 << 40),
        Err(e) => e.number() as u64,
    }
}

// Writes the bytes back that have this listing and these plain values.
pub fn tree_write(words: &[u16], values: &[u8], room: &mut [u8]) -> u64
    ensures { PackedBack words.now values.now room.old result room.new }
{
    pack_back(tree_write::write_back(words, values, room))
}
