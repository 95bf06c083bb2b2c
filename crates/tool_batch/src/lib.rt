// The command batch [--numbered] [EDITION] FILE: lists the cards in a file, one behind the other, and counts them.
// What is listed is `listing`'s. Files and words of the command line are looked at here.
// What is left at the end of the file, less than a card, is listed as a card of another size. The word --progress is the script's: it says that people look on.
#![tactic(auto)]

mod cards;
mod counts;

ghost use Rattle.std.specs.Prelude.{◌<◌};

use counts::Counts;
use edition::Edition;
use files::Outside;
use std::io::Read;

// A piece of the input has 100 images, whose listings of at most 521 bytes, with their numbers, fit 65,536 bytes.
const PIECE: usize = 100 * 256;

// How a run stands: whether the input goes on, whether all was written, and how many cards were accepted and refused.
#[derive(Clone, Copy)]
struct Stand {
    goes_on: bool,
    written: bool,
    counts: Counts,
}

// Reads a piece and writes its listings.
fn list_piece<R: Outside>(
    rt: &R,
    edition: Edition,
    numbered: bool,
    file: &mut impl Read,
    counts: Counts,
) -> Stand {
    let mut piece = [0u8; PIECE];
    let length = files::read_full(file, &mut piece);
    let mut room = [0u8; 65536];
    let listed = cards::put_cards(&mut room, edition, &piece[..length], numbered, counts);
    let written = cards::write_first(rt, &room, listed.size);
    Stand {
        goes_on: written & (length == PIECE),
        written,
        counts: listed.counts,
    }
}

// Nothing says that the input ends, so the loop counts its turns, up to a number that no run reaches.
fn list_all<R: Outside>(
    rt: &R,
    edition: Edition,
    numbered: bool,
    progress: bool,
    file: &mut impl Read,
) -> Stand {
    let mut stand = Stand {
        goes_on: true,
        written: true,
        counts: Counts::NONE,
    };
    for _ in 0..u64::MAX {
        stand = list_piece(rt, edition, numbered, file, stand.counts);
        if !stand.goes_on {
            return stand;
        }
        counts::say_progress(rt, progress, stand.counts);
    }
    stand
}

// Lists the cards in the file that word i names.
fn list_file<R: Outside>(rt: &R, edition: Edition, numbered: bool, progress: bool, i: usize) -> u8
    ensures { result < 4 }
{
    let mut path = [0u8; 4096];
    let length = files::arg(rt, i, &mut path);
    let Some(mut file) = files::open(rt, &path[..length]) else {
        return words::FAILED;
    };
    let stand = list_all(rt, edition, numbered, progress, &mut file);
    if !stand.written {
        return words::written(rt, false);
    }
    counts::say_counts(rt, stand.counts, &path[..length], progress)
}

fn word_is<R: Outside>(rt: &R, i: usize, text: &[u8]) -> bool {
    let mut word = [0u8; 16];
    let length = files::arg(rt, i, &mut word);
    ground_parts::is_same(&word[..length], text)
}

fn misused<R: Outside>(rt: &R) -> u8
    ensures { result < 4 }
{
    words::misused(
        rt,
        b"batch takes one file, and before it --numbered, and an edition",
    )
}

// The words from i on: the file is the last of them, and an edition stands before it, or none.
fn run_from<R: Outside>(rt: &R, i: usize, numbered: bool, progress: bool) -> u8
    ensures { result < 4 }
{
    let count = files::arg_count(rt);
    if count < i {
        return misused(rt);
    }
    let left = count - i;
    if left == 1 {
        return list_file(rt, words::default_edition(), numbered, progress, i);
    }
    if left != 2 {
        return misused(rt);
    }
    let chosen = tables::edition_at(rt, i);
    if chosen.status != words::DONE {
        return chosen.status;
    }
    list_file(rt, chosen.edition, numbered, progress, i % 8 + 1)
}

// The words behind --progress.
fn run_watched<R: Outside>(rt: &R) -> u8
    ensures { result < 4 }
{
    if word_is(rt, 3, b"--numbered") {
        return run_from(rt, 4, true, true);
    }
    run_from(rt, 3, false, true)
}

pub fn run<R: Outside>(rt: &R) -> u8
    ensures { result < 4 }
{
    if word_is(rt, 2, b"--progress") {
        return run_watched(rt);
    }
    if word_is(rt, 2, b"--numbered") {
        return run_from(rt, 3, true, false);
    }
    run_from(rt, 2, false, false)
}
