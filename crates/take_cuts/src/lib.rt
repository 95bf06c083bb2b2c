// Where a run of bytes of one kind ends, and whether a line of a table's text is to be skipped.
// Any bytes, and any place in them or past them, may be lent; a line is lent without its line feed.
// A carriage return is a blank, so that texts of either kind of line end are taken.
#![tactic(auto)]

ghost use Rattle.std.specs.Prelude.{◌≡◌, ◌-◌, ◌≤◌, length};
ghost use Rattle.table_take.specs.Splitting.{of_kind, is_kind, behind_kind};
ghost use Rattle.table_take.specs.Taking.{is_remark};

use table_take::Kind;

fn of_kind(kind: Kind, blank: bool, end: bool) -> bool
    ensures { result ≡ of_kind kind blank end }
{
    match kind {
        Kind::Blanks => blank,
        Kind::Signs => !blank,
        Kind::Line => !end,
    }
}

fn is_kind(kind: Kind, byte: u8) -> bool
    ensures { result ≡ is_kind kind byte }
{
    of_kind(
        kind,
        (byte == b' ') | (byte == b'\t') | (byte == b'\r'),
        byte == b'\n',
    )
}

// The place behind the bytes of a kind that stand from `at` on.
pub fn behind(text: &[u8], at: usize, kind: Kind) -> usize
    ensures value { result ≡ behind_kind kind text.now at }
    ensures lower_bound { (at ≤ result) × (result - length text.now ≤ at - length text.now) }
{
    for i in at..text.len() {
        if !is_kind(kind, text[i]) {
            return i;
        }
    }
    at.max(text.len())
}

// Whether a line is blank or starts with #.
pub fn is_remark(line: &[u8]) -> bool
    ensures { result ≡ is_remark line.now }
{
    let start = behind(line, 0, Kind::Blanks);
    if start < line.len() {
        line[start] == b'#'
    } else {
        true
    }
}
