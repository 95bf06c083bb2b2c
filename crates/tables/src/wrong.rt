// What is wrong with the text of a table, where, and what is due there: one line on standard error.
use files::Outside;

fn put<R: Outside>(rt: &R, text: &[u8]) {
    files::write_all(&rt.stderr(), text);
}

// The tag and the name of the row that is due: row k is due k + 1.
fn put_row<R: Outside>(rt: &R, due: usize) {
    let mut digits = [0u8; 2];
    if due == 0 {
        return;
    }
    let tag = edition_tags::tag_of(due - 1);
    ground_digits::put_hex(&mut digits, 0, tag);
    put(rt, &digits);
    put(rt, b", ");
    words::put_name(&rt.stderr(), tag);
}

fn put_due<R: Outside>(rt: &R, before: &[u8], due: usize, behind: &[u8]) {
    put(rt, before);
    put_row(rt, due);
    put(rt, behind);
}

// The line that is missing at the end.
fn put_missing<R: Outside>(rt: &R, due: usize) {
    if due == 0 {
        put(
            rt,
            b"the text ends, and the word edition with its number is due",
        );
    } else {
        put_due(rt, b"the text ends, and the row of ", due, b", is due");
    }
}

fn put_wrong<R: Outside>(rt: &R, wrong: u8, due: usize) {
    match wrong {
        3 => put_due(rt, b"the row of ", due, b", is due"),
        4 => put_due(
            rt,
            b"the name of row ",
            due,
            b", is due, a minus sign for each blank in it",
        ),
        12 => put_missing(rt, due),
        _ => words::put_line(
            &rt.stderr(),
            b"\nthe word edition and its number are due\na number from 0 to 255 is due\n\n\nrequired or optional is due\na rule is due: digits, text, lead, code, birth, expiry, raw or text-not-d\nlengths are due, as 2-28 or 1,4,6-9 or none\na length is more than 31\na range of lengths ends before it starts\nthe line goes on behind its last word\nthe text goes on behind the last row",
            wrong as usize,
        ),
    }
}

// Says what is wrong with a line of the file with this name.
pub(crate) fn say_wrong<R: Outside>(rt: &R, name: &[u8], line: usize, wrong: u8, due: usize) {
    put(rt, b"kvk: ");
    put(rt, name);
    put(rt, b", line ");
    files::print_decimal(&rt.stderr(), line as u64);
    put(rt, b": ");
    put_wrong(rt, wrong, due);
    put(rt, b"\n");
}
