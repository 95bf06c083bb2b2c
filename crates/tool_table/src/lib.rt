// The command table: EDITION writes a table as text, check EDITION says whether it is well formed, nested INNER OUTER [OUT] whether one is nested in another.
// What a table's text is, what is amiss and what is nested, is told by `put_table`, `report`, `nesting` and `example`; words and answers are looked at here.
// An edition is terminal, issue or the file of a table, - too; of two, only one can be standard input.
#![tactic(auto)]

mod check;
mod nested;

ghost use Rattle.std.specs.Prelude.{◌<◌};

use edition::Edition;
use files::Outside;

// Writes the text of a table.
fn print<R: Outside>(rt: &R, edition: Edition) -> u8
    ensures { result < 4 }
{
    let mut room = [0u8; 4096];
    let size = put_table::put(edition, &mut room);
    words::written(rt, files::write_all(rt, &room[..size]))
}

fn run_print<R: Outside>(rt: &R) -> u8
    ensures { result < 4 }
{
    let chosen = tables::table_at(rt, 2);
    if chosen.status != words::DONE {
        return chosen.status;
    }
    print(rt, chosen.edition)
}

fn run_check<R: Outside>(rt: &R) -> u8
    ensures { result < 4 }
{
    let chosen = tables::table_at(rt, 3);
    if chosen.status != words::DONE {
        return chosen.status;
    }
    check::check(rt, chosen.edition)
}

fn run_nested<R: Outside>(rt: &R, to_file: bool) -> u8
    ensures { result < 4 }
{
    let inner = tables::table_at(rt, 3);
    if inner.status != words::DONE {
        return inner.status;
    }
    let outer = tables::table_at(rt, 4);
    if outer.status != words::DONE {
        return outer.status;
    }
    nested::nested(rt, inner.edition, outer.edition, to_file)
}

// The command, by its first word.
fn run_word<R: Outside>(rt: &R, word: &[u8], count: usize) -> u8
    ensures { result < 4 }
{
    if count == 3 {
        return run_print(rt);
    }
    if ground_parts::is_same(word, b"check") & (count == 4) {
        return run_check(rt);
    }
    if ground_parts::is_same(word, b"nested") & ((count == 5) | (count == 6)) {
        return run_nested(rt, count == 6);
    }
    words::misused(
        rt,
        b"table takes an edition, or check and one, or nested and two",
    )
}

pub fn run<R: Outside>(rt: &R) -> u8
    ensures { result < 4 }
{
    let mut word = [0u8; 16];
    let length = files::arg(rt, 2, &mut word);
    run_word(rt, &word[..length], files::arg_count(rt))
}
