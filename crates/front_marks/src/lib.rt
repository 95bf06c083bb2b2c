// Whether a printed value has an underscore.
// Any record may be lent, also one that claims more than its bytes. What an underscore is answered with is the caller's.
// What a record claims past its bytes is 0, and no underscore, so only its bytes are looked at.
#![tactic(auto)]

ghost use Rattle.std.specs.Prelude.{◌≡◌, cond, ltb, ◌∷◌, ◌≤◌, drop};
ghost use Rattle.ground.specs.Lists.{among};
ghost use Rattle.card.specs.Content.{value_of, content_of};
ghost use Rattle.front.specs.Refusing.{other_rows, printed_rows, underscored};

use card::{Object, Record};

// Whether a value has an underscore.
fn has_underscore(item: Object) -> bool
    ensures { result ≡ among 0x5F (value_of item) }
{
    let n = usize::from(item.length).min(28);
    item.bytes[..n].contains(&b'_')
}

// Where the printed rows begin: the fund name is the first.
fn first_printed(fund: bool) -> usize
    ensures other_rows_value { drop result (0 ∷ other_rows) ≡ printed_rows fund }
    ensures upper_bound { result ≤ 1 }
{
    if fund { 0 } else { 1 }
}

// Whether one of the printed values has an underscore.
pub fn has_underscores(content: Record, fund: bool) -> bool
    ensures { result ≡ underscored (content_of content) (printed_rows fund) }
{
    let rows: [usize; 10] = [0, 1, 3, 4, 5, 6, 7, 8, 9, 15];
    let first = first_printed(fund);
    for i in first..10 {
        let row = rows[i];
        if has_underscore(content.objects[row]) {
            return true;
        }
    }
    false
}
