// The separate call that puts an edition's number on a record.
// Any edition and record may be asked about; what is refused comes back as it came.
// It tells what writing would tell of the record with the number put on, so never 20 or 22; a record that has the number already comes back the same.
#![tactic(auto)]

ghost use Rattle.std.specs.Prelude.{◌≡◌};
ghost use Rattle.card.specs.Writing.{renumber_refusal, renumbered};

use card::{Record, Refusal};
use edition::Edition;

#[derive(Clone, Copy)]
pub struct Renumbered {
    pub refusal: Refusal,
    pub content: Record,
}

// Puts the edition's number on a record that the edition would write but for the number.
pub fn renumber(edition: Edition, content: Record) -> Renumbered
    ensures { result ≡ record { refusal = renumber_refusal edition content; content = renumbered edition content } }
{
    let refusal = checks::check_content(edition, content);
    if refusal.number != 0 {
        return Renumbered { refusal, content };
    }
    let free = content.free;
    let objects = content.objects;
    Renumbered {
        refusal,
        content: Record {
            first: content.first,
            free,
            last: content.last,
            objects,
            number: edition.number,
        },
    }
}
