// The command diff EDITION FIRST SECOND: a line for each difference of two cards, in words, both values beside each other.
// What differs, and what is refused, is told by `differences`; the words of the command line are looked at here.
// It ends as diff does, and not as the other commands do: 0 the cards are equal, 1 they differ, 2 one is refused.
#![tactic(auto)]

ghost use Rattle.std.specs.Prelude.{◌<◌};

use card::{Object, Record};
use edition::Edition;
use files::{Outside, Source};
use std::io::Read;

const EQUAL: u8 = 0;

const DIFFERENT: u8 = 1;

const TROUBLE: u8 = 2;

fn put<R: Outside>(rt: &R, text: &[u8]) {
    files::write_all(rt, text);
}

fn put_number<R: Outside>(rt: &R, n: u64) {
    files::print_decimal(rt, n);
}

fn put_hex<R: Outside>(rt: &R, byte: u8) {
    let mut digits = [0u8; 2];
    ground_digits::put_hex(&mut digits, 0, byte);
    put(rt, &digits);
}

fn put_index<R: Outside>(rt: &R, index: u32) {
    put(rt, b": first difference at index ");
    put_number(rt, index as u64);
    put(rt, b": ");
}

// What differs, by the kind of the entry and its place.
fn put_kind<R: Outside>(rt: &R, kind: u32, place: u32) {
    match kind {
        1 => put(rt, b": absent in the first card: "),
        2 => put(rt, b": absent in the second card: "),
        3 => put(rt, b": lengths differ: "),
        _ => put_index(rt, place),
    }
}

// The first bytes of a value in quotation marks, which no value has.
fn put_quoted<R: Outside>(rt: &R, bytes: &[u8], length: usize) {
    if length > bytes.len() {
        return;
    }
    put(rt, b"\"");
    put(rt, &bytes[..length]);
    put(rt, b"\"");
}

fn put_value<R: Outside>(rt: &R, item: Object) {
    let bytes = item.bytes;
    if item.length == 0 {
        put(rt, b"none");
    } else {
        put_quoted(rt, &bytes, item.length as usize);
    }
}

// The row of a tag.
fn row_of(tag: u8) -> usize
    ensures { result < 16 }
{
    (0..15)
        .find(|i| edition_tags::tag_of(*i) == tag)
        .unwrap_or(15)
}

// The line of an object that differs. Answers whether its end was written.
fn write_object<R: Outside>(rt: &R, entry: u32, first: Record, second: Record) -> bool {
    let tag = (entry / 256 % 256) as u8;
    let row = row_of(tag);
    let a = first.objects[row];
    let b = second.objects[row];
    put_hex(rt, tag);
    put(rt, b" ");
    words::put_name(rt, tag);
    put_kind(rt, entry / 65536, entry % 256);
    put_value(rt, a);
    put(rt, b", ");
    put_value(rt, b);
    files::write_all(rt, b"\n")
}

// The line of a byte that differs, by its address. Answers whether its end was written.
fn write_byte<R: Outside>(rt: &R, entry: u32, first: &[u8], second: &[u8]) -> bool {
    let address = (entry % 256) as usize;
    put(rt, b"address ");
    put_number(rt, address as u64);
    put(rt, b": ");
    put_hex(rt, ground_parts::byte_at(first, address));
    put(rt, b", ");
    put_hex(rt, ground_parts::byte_at(second, address));
    files::write_all(rt, b"\n")
}

fn write_entry<R: Outside>(
    rt: &R,
    entry: u32,
    first: &[u8],
    one: Record,
    second: &[u8],
    two: Record,
) -> bool {
    if entry / 65536 == 5 {
        write_byte(rt, entry, first, second)
    } else {
        write_object(rt, entry, one, two)
    }
}

// Writes a line for each entry; the first 0 ends them.
fn write_entries<R: Outside>(
    rt: &R,
    entries: [u32; 30],
    first: &[u8],
    one: Record,
    second: &[u8],
    two: Record,
) -> bool {
    for entry in entries {
        if entry == 0 {
            return true;
        }
        if !write_entry(rt, entry, first, one, second, two) {
            return false;
        }
    }
    true
}

// Writes what a listing writes of a refused card, and says which card it is and what is wrong.
fn refuse_card<R: Outside>(rt: &R, which: &[u8], edition: Edition, image: &[u8]) -> u8
    ensures { result < 4 }
{
    let mut room = [0u8; 521];
    let size = listing::list(edition, image, &mut room);
    if !files::write_all(rt, &room[..size]) {
        return words::written(rt, false);
    }
    words::say(rt, which);
    words::say_refused(rt, edition, image);
    TROUBLE
}

fn refuse<R: Outside>(rt: &R, edition: Edition, first: &[u8], second: &[u8]) -> u8
    ensures { result < 4 }
{
    let refusal = reader_places::places(edition, first).refusal;
    if refusal.number != 0 {
        refuse_card(rt, b"the first card is refused", edition, first)
    } else {
        refuse_card(rt, b"the second card is refused", edition, second)
    }
}

fn compare<R: Outside>(rt: &R, edition: Edition, first: &[u8], second: &[u8]) -> u8
    ensures { result < 4 }
{
    let found = differences::compare(edition, first, second);
    let refusal = found.refusal;
    if refusal.number != 0 {
        return refuse(rt, edition, first, second);
    }
    if found.count == 0 {
        return EQUAL;
    }
    let entries = found.entries;
    let one = reader::read(edition, first).content;
    let two = reader::read(edition, second).content;
    if write_entries(rt, entries, first, one, second, two) {
        return DIFFERENT;
    }
    words::written(rt, false)
}

// Compares the cards in two open files.
fn compare_open<R: Outside>(
    rt: &R,
    edition: Edition,
    one: &mut impl Read,
    two: &mut impl Read,
) -> u8
    ensures { result < 4 }
{
    // One byte more than a card has: a card with something behind it is none.
    let mut first = [0u8; 257];
    let m = files::read_full(one, &mut first);
    let mut second = [0u8; 257];
    let n = files::read_full(two, &mut second);
    compare(rt, edition, &first[..m], &second[..n])
}

// Opens the file that word i names.
fn open_at<R: Outside>(rt: &R, i: usize) -> Option<Source<R::Reader, R::File>> {
    let mut path = [0u8; 4096];
    let length = files::arg(rt, i, &mut path);
    files::open(rt, &path[..length])
}

fn compare_files<R: Outside>(rt: &R, edition: Edition) -> u8
    ensures { result < 4 }
{
    let Some(mut one) = open_at(rt, 3) else {
        return words::FAILED;
    };
    let Some(mut two) = open_at(rt, 4) else {
        return words::FAILED;
    };
    compare_open(rt, edition, &mut one, &mut two)
}

pub fn run<R: Outside>(rt: &R) -> u8
    ensures { result < 4 }
{
    if files::arg_count(rt) != 5 {
        return words::misused(rt, b"diff takes an edition and two files");
    }
    let chosen = tables::edition_at(rt, 2);
    if chosen.status != words::DONE {
        return chosen.status;
    }
    compare_files(rt, chosen.edition)
}
