// The archive for C: the calls of include/kvk.h, each handed on to the crate `kvk`, with the same promise.
// Any table, image, record and room may be lent, of whatever size: what has not its size is refused with a number.
// A library exports nothing to C, so each of its calls stands here once more; `rt lib` makes out/libkvk_c.a of it, which is handed out as libkvk.a.
#![tactic(auto)]

ghost use Rattle.std.specs.Prelude.{◌≡◌, not, eqb};
ghost use Rattle.wire.specs.Answers.{packed};
ghost use Rattle.calls_cards.specs.Calls.{kvk_edition, kvk_edition_room, kvk_read, kvk_read_room, kvk_renumber, kvk_renumber_bytes, kvk_write, kvk_write_image};
ghost use Rattle.calls_cards.specs.PlaceCalls.{kvk_places, kvk_places_room};
ghost use Rattle.host.specs.Hosting.{room_after};
ghost use Rattle.wire_tables.specs.Tables.{lent_edition};
ghost use Rattle.calls_seen.specs.HostCalls.{kvk_host};
ghost use Rattle.calls_seen.specs.Printing.{kvk_front, kvk_front_room};
ghost use Rattle.calls_pairs.specs.Comparing.{kvk_differences, kvk_differences_room};
ghost use Rattle.calls_pairs.specs.Fresher.{kvk_fresher, kvk_fresher_room};
ghost use Rattle.calls_plans.specs.Pulling.{kvk_check_plan, kvk_plan, kvk_plan_room};
ghost use Rattle.day.specs.Calls.{add_answer, add_room, build_answer, build_room, count_answer, find_answer, image_answer};
ghost use Rattle.calls_days.specs.Days.{day_packed};
ghost use Rattle.lengths.specs.Lengths.{length_read, length_told};
ghost use Rattle.calls_foreign.specs.Foreign.{PackedBack, packed_length, packed_tree};
ghost use Rattle.tree.specs.Answers.{tree_answer, tree_room};
ghost use Rattle.calls_tables.specs.Nestings.{packed_nesting, tables_nesting};

// Reads an image into a record of 479 bytes, under a table of 103 bytes.
#[unsafe(no_mangle)]
pub extern "C" fn kvk_read(table: &[u8], image: &[u8], room: &mut [u8]) -> u64
    ensures value { result ≡ packed (kvk_read table.now image.now room.old) }
    ensures room_after { room.new ≡ kvk_read_room table.now image.now room.old }
{
    kvk::kvk_read(table, image, room)
}

// Writes a record of 479 bytes into an image, under a table of 103 bytes.
#[unsafe(no_mangle)]
pub extern "C" fn kvk_write(table: &[u8], bytes: &[u8], image: &mut [u8]) -> u64
    ensures value { result ≡ packed (kvk_write table.now bytes.now image.old) }
    ensures image_after { image.new ≡ kvk_write_image table.now bytes.now image.old }
{
    kvk::kvk_write(table, bytes, image)
}

// Fills a room of 103 bytes with the table of a shipped edition: 1 terminal, 2 issue.
#[unsafe(no_mangle)]
pub extern "C" fn kvk_edition(which: u64, room: &mut [u8]) -> u64
    ensures value { result ≡ packed (kvk_edition which room.old) }
    ensures room_after { room.new ≡ kvk_edition_room which room.old }
{
    kvk::kvk_edition(which, room)
}

// Puts the number of a table of 103 bytes on a record of 479 bytes, in place, if its edition would write the record but for the number.
#[unsafe(no_mangle)]
pub extern "C" fn kvk_renumber(table: &[u8], bytes: &mut [u8]) -> u64
    ensures value { result ≡ packed (kvk_renumber table.now bytes.old) }
    ensures bytes_after { bytes.new ≡ kvk_renumber_bytes table.now bytes.old }
{
    kvk::kvk_renumber(table, bytes)
}

// Fills a room of 32 bytes with the start and the length of each object of an image.
#[unsafe(no_mangle)]
pub extern "C" fn kvk_places(table: &[u8], image: &[u8], room: &mut [u8]) -> u64
    ensures value { result ≡ packed (kvk_places table.now image.now room.old) }
    ensures room_after { room.new ≡ kvk_places_room table.now image.now room.old }
{
    kvk::kvk_places(table, image, room)
}

// Answers a command over an image at the start of a room of 257 bytes; the value is how many bytes the answer has.
#[unsafe(no_mangle)]
pub extern "C" fn kvk_host(table: &[u8], image: &[u8], command: &[u8], room: &mut [u8]) -> u64
    ensures value { result ≡ kvk_host table.now image.now command.now room.old }
    ensures room_after { room.new ≡ room_after (lent_edition table.now) image.now command.now room.old }
{
    kvk::kvk_host(table, image, command, room)
}

// Writes the front of a record of 479 bytes into a room of 112 bytes, for 0 without the fund name and else with it.
#[unsafe(no_mangle)]
pub extern "C" fn kvk_front(bytes: &[u8], fund: u64, room: &mut [u8]) -> u64
    ensures value { result ≡ packed (kvk_front bytes.now (not (eqb fund 0)) room.old) }
    ensures room_after { room.new ≡ kvk_front_room bytes.now (not (eqb fund 0)) room.old }
{
    kvk::kvk_front(bytes, fund, room)
}

// Lists the differences of two images into a room of thirty words; the value of the answer is how many there are.
#[unsafe(no_mangle)]
pub extern "C" fn kvk_differences(
    table: &[u8],
    first: &[u8],
    second: &[u8],
    room: &mut [u32],
) -> u64
    ensures value { result ≡ kvk_differences table.now first.now second.now room.old }
    ensures room_after { room.new ≡ kvk_differences_room table.now first.now second.now room.old }
{
    kvk::kvk_differences(table, first, second, room)
}

// Fills a room of 8 bytes: the card, 1 or 2; start and length of its family name; 0; the months, signed.
#[unsafe(no_mangle)]
pub extern "C" fn kvk_fresher(table: &[u8], first: &[u8], second: &[u8], room: &mut [u8]) -> u64
    ensures value { result ≡ packed (kvk_fresher table.now first.now second.now room.old) }
    ensures room_after { room.new ≡ kvk_fresher_room table.now first.now second.now room.old }
{
    kvk::kvk_fresher(table, first, second, room)
}

// Plans the steps from the old image to the new one into a room of 257 words; the value of the answer is how many there are.
#[unsafe(no_mangle)]
pub extern "C" fn kvk_plan(table: &[u8], old: &[u8], new: &[u8], room: &mut [u32]) -> u64
    ensures value { result ≡ kvk_plan table.now old.now new.now room.old }
    ensures room_after { room.new ≡ kvk_plan_room table.now old.now new.now room.old }
{
    kvk::kvk_plan(table, old, new, room)
}

// Checks a plan, of which any word is a step; the value of the answer is 1 for yes and 0 for no.
#[unsafe(no_mangle)]
pub extern "C" fn kvk_check_plan(table: &[u8], old: &[u8], new: &[u8], steps: &[u32]) -> u64
    ensures { result ≡ kvk_check_plan table.now old.now new.now steps.now }
{
    kvk::kvk_check_plan(table, old, new, steps)
}

// How many cards a file has.
#[unsafe(no_mangle)]
pub extern "C" fn kvk_day_count(file: &[u8]) -> u64
    ensures { result ≡ day_packed (count_answer file.now) }
{
    kvk::kvk_day_count(file)
}

// Where the image at a position starts in a file.
#[unsafe(no_mangle)]
pub extern "C" fn kvk_day_image(file: &[u8], position: u64) -> u64
    ensures { result ≡ day_packed (image_answer file.now position) }
{
    kvk::kvk_day_image(file, position)
}

// The position of the first card with a number.
#[unsafe(no_mangle)]
pub extern "C" fn kvk_day_find(file: &[u8], number: &[u8]) -> u64
    ensures { result ≡ day_packed (find_answer file.now number.now) }
{
    kvk::kvk_day_find(file, number)
}

// Fills the start of a room with a file and one card more at its end; the value is the new file's length.
#[unsafe(no_mangle)]
pub extern "C" fn kvk_day_add(file: &[u8], card: &[u8], room: &mut [u8]) -> u64
    ensures value { result ≡ day_packed (add_answer file.now card.now room.old) }
    ensures room_after { room.new ≡ add_room file.now card.now room.old }
{
    kvk::kvk_day_add(file, card, room)
}

// Fills the start of a room with the file of some images; the value is its length.
#[unsafe(no_mangle)]
pub extern "C" fn kvk_day_build(images: &[u8], room: &mut [u8]) -> u64
    ensures value { result ≡ day_packed (build_answer images.now room.old) }
    ensures room_after { room.new ≡ build_room images.now room.old }
{
    kvk::kvk_day_build(images, room)
}

// Reads the length field at the head of some bytes: the length in bits 40 to 55, the bytes used in bits 56 to 63.
#[unsafe(no_mangle)]
pub extern "C" fn kvk_length(bytes: &[u8]) -> u64
    ensures { result ≡ packed_length (length_told (length_read bytes.now)) }
{
    kvk::kvk_length(bytes)
}

// Lists the objects of some bytes, four words each: tag, depth, address, length.
#[unsafe(no_mangle)]
pub extern "C" fn kvk_tree(bytes: &[u8], room: &mut [u16]) -> u64
    ensures value { result ≡ packed_tree (tree_answer bytes.now room.old) }
    ensures room_after { room.new ≡ tree_room bytes.now room.old }
{
    kvk::kvk_tree(bytes, room)
}

// Writes the bytes back that have this listing and these plain values.
#[unsafe(no_mangle)]
pub extern "C" fn kvk_tree_write(words: &[u16], values: &[u8], room: &mut [u8]) -> u64
    ensures { PackedBack words.now values.now room.old result room.new }
{
    kvk::kvk_tree_write(words, values, room)
}

// Whether the edition of the inner table is nested in that of the outer: the value is 1 for yes; else the clause that fails is the place, and the row's tag the tag.
#[unsafe(no_mangle)]
pub extern "C" fn kvk_nested(inner: &[u8], outer: &[u8]) -> u64
    ensures { result ≡ packed_nesting (tables_nesting inner.now outer.now) }
{
    kvk::kvk_nested(inner, outer)
}
