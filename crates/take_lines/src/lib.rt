// A table from its text: the edition, or the first line that is wrong and what is wrong with it.
// Any bytes may be lent. What is taken is what is written: whether the edition is well formed, others ask.
// A text that is wrong anywhere gives no edition at all; lines that are blank or start with # are counted and skipped.
#![tactic(auto)]

ghost use Rattle.std.specs.Prelude.{◌≡◌, ◌≤◌};
ghost use Rattle.table_take.specs.Taking.{refused, stored, with_line, taken};

use edition::Row;
use table_take::{Fields, Kind, Taken, Taking};

fn refused(state: Taking, wrong: u8, line: usize) -> Taking
    ensures { result ≡ refused state wrong line }
{
    Taking {
        wrong,
        line,
        ..state
    }
}

// Keeps what a line says.
fn stored(state: Taking, got: Fields) -> Taking
    requires { state.due ≤ 17 }
    ensures { result ≡ stored state got }
{
    let due = state.due;
    if due == 0 {
        return Taking {
            wrong: 0,
            line: 0,
            due: 1,
            number: got.number,
            ..state
        };
    }
    let mut rows = state.rows;
    rows[due - 1] = Row {
        required: got.required,
        rule: take_rules::rule_by(got.rule),
        lengths: got.lengths,
    };
    Taking {
        wrong: 0,
        line: 0,
        due: due + 1,
        rows,
        ..state
    }
}

fn with_line(state: Taking, n: usize, line: &[u8]) -> Taking
    ensures { result ≡ with_line state n line.now }
{
    if state.wrong != 0 {
        return state;
    }
    if take_cuts::is_remark(line) {
        return state;
    }
    if state.due > 17 {
        return refused(state, 11, n);
    }
    let got = take_words::line_taken(state.due, line);
    if got.wrong != 0 {
        return refused(state, got.wrong, n);
    }
    stored(state, got)
}

// The table that a text writes.
pub fn take(text: &[u8]) -> Taken
    ensures { result ≡ taken text.now }
{
    let mut state = Taking {
        wrong: 0,
        line: 0,
        due: 0,
        number: 0,
        rows: [Row::BLANK; 17],
    };
    let mut n = 1;
    let mut at = 0;
    while at < text.len() {
        let end = take_cuts::behind(text, at, Kind::Line);
        state = with_line(state, n, &text[at..end]);
        at = end + 1;
        n += 1;
    }
    take_ends::finished(state, n)
}
