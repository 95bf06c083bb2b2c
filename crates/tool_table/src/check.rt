// Whether a table is well formed.
ghost use Rattle.std.specs.Prelude.{◌<◌};

use edition::Edition;
use files::Outside;
use report::Finding;

// Writes a row: its tag and its name.
pub(crate) fn write_row<R: Outside>(rt: &R, row: usize) {
    let tag = edition_tags::tag_of(row);
    let mut digits = [0u8; 2];
    ground_digits::put_hex(&mut digits, 0, tag);
    files::write_all(rt, b"row ");
    files::write_all(rt, &digits);
    files::write_all(rt, b", ");
    words::put_name(rt, tag);
}

// Writes the first bad row, and the clause that fails there.
fn write_bad<R: Outside>(rt: &R, found: Finding) -> u8
    ensures { result < 4 }
{
    files::write_all(rt, b"not well formed: ");
    write_row(rt, found.row);
    words::put_line(
        rt,
        b"\n: it permits no length\n: it permits a length outside 1 to 28\n: it has to be required\n: its one length has to be 1\n: its rule has to be raw\n: raw is the rule of 8E alone\n: the one length of a birth date has to be 8\n: the one length of an expiry has to be 4",
        found.clause as usize,
    );
    words::refused(rt, b"\n")
}

pub(crate) fn check<R: Outside>(rt: &R, edition: Edition) -> u8
    ensures { result < 4 }
{
    let found = report_answer::report(edition);
    let clause = found.clause;
    match clause {
        0 => words::written(rt, files::write_all(rt, b"well formed\n")),
        9 => words::refused(rt, b"not well formed: the number of the edition is 0\n"),
        _ => write_bad(rt, found),
    }
}
