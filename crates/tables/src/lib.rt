// An edition by a word of the command line: terminal, issue, or the file of a table.
// Which word it is, and what is done with the edition, is the caller's. What is wrong with the word or with the file is said here, on standard error.
// No byte of a card is taken here: a minus sign, which stands for standard input, names an edition only where a caller says so.
#![tactic(auto)]

mod wrong;

ghost use Rattle.std.specs.Prelude.{◌<◌};

use edition::Edition;
use files::Outside;

// The edition, if the status is words::DONE; else how the run ends.
#[derive(Clone, Copy)]
pub struct Chosen {
    pub status: u8,
    pub edition: Edition,
}

// No edition.
fn none(status: u8) -> Chosen
    requires { status < 4 }
    ensures { result.status < 4 }
{
    Chosen {
        status,
        edition: Edition::issue(),
    }
}

// The edition of a text, whose file has this name.
fn take<R: Outside>(rt: &R, name: &[u8], text: &[u8]) -> Chosen
    ensures { result.status < 4 }
{
    match take_lines::take(text) {
        Ok(edition) => Chosen {
            status: words::DONE,
            edition,
        },
        Err(mistake) => {
            wrong::say_wrong(rt, name, mistake.line, mistake.wrong, mistake.due);
            none(words::FAILED)
        }
    }
}

// The edition in a file.
fn read<R: Outside>(rt: &R, name: &[u8]) -> Chosen
    ensures { result.status < 4 }
{
    let Some(mut file) = files::open(rt, name) else {
        words::say(rt, b"an edition is terminal, issue, or the file of a table");
        return none(words::FAILED);
    };
    let mut text = [0u8; 65536];
    let size = files::read_full(&mut file, &mut text);
    if size > 65535 {
        words::say(rt, b"the text of a table has at most 65535 bytes");
        return none(words::FAILED);
    }
    take(rt, name, &text[..size])
}

fn find<R: Outside>(rt: &R, name: &[u8]) -> Chosen
    ensures { result.status < 4 }
{
    let number = files::edition_named(name);
    if number != 0 {
        return Chosen {
            status: words::DONE,
            edition: words::edition_by(number),
        };
    }
    read(rt, name)
}

// The edition that word i names; a word that begins with a minus sign, as an option does, names none.
pub fn edition_at<R: Outside>(rt: &R, i: usize) -> Chosen
    ensures { result.status < 4 }
{
    let mut name = [0u8; 4096];
    let length = files::arg(rt, i, &mut name);
    if ground_parts::byte_at(&name[..length], 0) == b'-' {
        return none(words::misused(rt, b"an edition is terminal, issue, or the file of a table"));
    }
    find(rt, &name[..length])
}

// The edition that word i names; a minus sign names a table on standard input.
pub fn table_at<R: Outside>(rt: &R, i: usize) -> Chosen
    ensures { result.status < 4 }
{
    let mut name = [0u8; 4096];
    let length = files::arg(rt, i, &mut name);
    find(rt, &name[..length])
}
