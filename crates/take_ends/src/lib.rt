// What a table's text gives once all of its lines have been looked at.
// Any state of the lines, and any number of a line, may be lent.
// A text that ends before its last row gives no edition, just as a line that is wrong.
#![tactic(auto)]

ghost use Rattle.std.specs.Prelude.{◌≡◌};
ghost use Rattle.table_take.specs.Taking.{finished};

use edition::Edition;
use table_take::{Mistake, Taken, Taking};

// What all lines have said; n is the number of the line behind the last.
pub fn finished(state: Taking, n: usize) -> Taken
    ensures { result ≡ finished state n }
{
    let rows = state.rows;
    if state.wrong != 0 {
        return Err(Mistake {
            wrong: state.wrong,
            line: state.line,
            due: state.due,
        });
    }
    if state.due < 18 {
        return Err(Mistake {
            wrong: 12,
            line: n,
            due: state.due,
        });
    }
    Ok(Edition {
        rows,
        number: state.number,
    })
}
