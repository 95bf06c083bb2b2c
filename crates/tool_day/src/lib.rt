// The command day: a round of visits as one file, built, added to, listed, searched, and a card taken out of it.
// What a day file is, is `day`'s. The words of the command line are looked at here, and nothing is written where they are bad.
// A file is replaced only when the new one is complete on disk; where anything is refused it stays as it is.
#![tactic(auto)]

mod changes;
mod inputs;
mod looks;
mod refusals;

ghost use Rattle.std.specs.Prelude.{◌<◌};

use files::Outside;

// The commands that have so many words, the program's name and `day` among them.
fn run_command<R: Outside>(rt: &R, name: &[u8], words: usize) -> u8
    ensures { result < 4 }
{
    match (name, words) {
        (b"build", 4..) => changes::build(rt, words),
        (b"add", 5) => changes::add(rt),
        (b"list", 4) => looks::list(rt),
        (b"find", 5) => looks::find(rt),
        (b"get", 6) => looks::get(rt),
        _ => words::misused(
            rt,
            b"day takes build OUT CARD.., add FILE CARD, list FILE, find FILE NUMBER or get FILE POSITION OUT",
        ),
    }
}

pub fn run<R: Outside>(rt: &R) -> u8
    ensures { result < 4 }
{
    let mut name = [0u8; 16];
    let length = files::arg(rt, 2, &mut name);
    run_command(rt, &name[..length], files::arg_count(rt))
}
