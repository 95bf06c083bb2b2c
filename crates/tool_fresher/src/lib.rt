// The command fresher EDITION FIRST SECOND: which of two cards is valid later, its family name, and by how many months.
// What is answered is `fresher_cards`'s. Files and words of the command line are looked at here, and nothing is written where they are bad.
// Where a card is refused, the answer is its own, as `kvk list` gives it, with its file named on standard error.
#![tactic(auto)]

ghost use Rattle.std.specs.Prelude.{◌<◌};

use edition::Edition;
use files::{Outside, Source};

// Names the file of word i on standard error.
fn name_file<R: Outside>(rt: &R, i: usize) {
    let mut path = [0u8; 4096];
    let length = files::arg(rt, i, &mut path);
    files::write_all(&rt.stderr(), b"kvk: ");
    files::write_all(&rt.stderr(), &path[..length]);
    files::write_all(&rt.stderr(), b" is refused\n");
}

// Writes the refusal of the card in the file of word i.
fn refuse_card<R: Outside>(rt: &R, edition: Edition, image: &[u8], i: usize) -> u8
    ensures { result < 4 }
{
    let mut room = [0u8; 521];
    let size = listing::list(edition, image, &mut room);
    let is_written = files::write_all(rt, &room[..size]);
    if !is_written {
        return words::written(rt, is_written);
    }
    name_file(rt, i);
    words::say_refused(rt, edition, image);
    words::REFUSED
}

// 24
fn refuse_dates<R: Outside>(rt: &R) -> u8
    ensures { result < 4 }
{
    if !files::write_all(rt, b"REFUSED 24 0 00 0 0\n") {
        return words::written(rt, false);
    }
    words::say(
        rt,
        b"a card has no validity, or the edition's rule for the validity is not expiry",
    );
    words::REFUSED
}

// The refusal of the first card, of the second, or 24.
fn refuse<R: Outside>(rt: &R, edition: Edition, first: &[u8], second: &[u8]) -> u8
    ensures { result < 4 }
{
    let a = reader_places::places(edition, first).refusal;
    if a.number != 0 {
        return refuse_card(rt, edition, first, 3);
    }
    let b = reader_places::places(edition, second).refusal;
    if b.number != 0 {
        return refuse_card(rt, edition, second, 4);
    }
    refuse_dates(rt)
}

// How many months apart, by the last four bytes of a comparison: below zero where they are 2^31 or more.
fn count_months(high: u8, third: u8, second: u8, low: u8) -> u64 {
    let bits = (high as u64) * (1 << 24)
        + (third as u64) * (1 << 16)
        + (second as u64) * (1 << 8)
        + low as u64;
    if bits < 1 << 31 {
        bits
    } else {
        (1 << 32) - bits
    }
}

// Which card, and by how many months.
fn write_months<R: Outside>(rt: &R, is_second: bool, count: u64) -> bool {
    if count == 0 {
        return files::write_all(rt, b"the first, both are valid as long\n");
    }
    let which = if is_second {
        files::write_all(rt, b"the second, by ")
    } else {
        files::write_all(rt, b"the first, by ")
    };
    let is_told = files::print_decimal(rt, count);
    let unit = if count == 1 {
        files::write_all(rt, b" month\n")
    } else {
        files::write_all(rt, b" months\n")
    };
    which & is_told & unit
}

// The file and the family name of the fresher card.
fn write_card<R: Outside>(rt: &R, is_second: bool, name: &[u8]) -> bool {
    let i = if is_second { 4 } else { 3 };
    let mut path = [0u8; 4096];
    let length = files::arg(rt, i, &mut path);
    let is_begun = files::write_all(rt, b"file: ");
    let is_named = files::write_all(rt, &path[..length]);
    let is_parted = files::write_all(rt, b"\nfamily name: ");
    let is_told = files::write_all(rt, name);
    let is_ended = files::write_all(rt, b"\n");
    is_begun & is_named & is_parted & is_told & is_ended
}

fn answer<'a, R: Outside>(rt: &R, edition: Edition, first: &'a [u8], second: &'a [u8]) -> u8
    ensures { result < 4 }
{
    let fresher = fresher_cards::compare(edition, first, second);
    let refusal = fresher.refusal;
    if refusal.number != 0 {
        return refuse(rt, edition, first, second);
    }
    let mut bytes = [0u8; 8];
    fresher_bytes::write_fresher(fresher, &mut bytes);
    let count = count_months(bytes[4], bytes[5], bytes[6], bytes[7]);
    let is_told = write_months(rt, fresher.second, count);
    let is_named = write_card(
        rt,
        fresher.second,
        fresher_cards::name(first, second, fresher),
    );
    words::written(rt, is_told & is_named)
}

// Opens the file that word i names.
fn open<R: Outside>(rt: &R, i: usize) -> Option<Source<R::Reader, R::File>> {
    let mut path = [0u8; 4096];
    let length = files::arg(rt, i, &mut path);
    files::open(rt, &path[..length])
}

fn compare_files<R: Outside>(rt: &R, edition: Edition) -> u8
    ensures { result < 4 }
{
    let Some(mut a) = open(rt, 3) else {
        return words::FAILED;
    };
    let Some(mut b) = open(rt, 4) else {
        return words::FAILED;
    };
    // One byte more than a card has: a card with something behind it is none.
    let mut first = [0u8; 257];
    let first_size = files::read_full(&mut a, &mut first);
    let mut second = [0u8; 257];
    let second_size = files::read_full(&mut b, &mut second);
    answer(rt, edition, &first[..first_size], &second[..second_size])
}

pub fn run<R: Outside>(rt: &R) -> u8
    ensures { result < 4 }
{
    if files::arg_count(rt) != 5 {
        return words::misused(rt, b"fresher takes an edition and two files");
    }
    let chosen = tables::edition_at(rt, 2);
    if chosen.status != words::DONE {
        return chosen.status;
    }
    compare_files(rt, chosen.edition)
}
