// The object that stands behind a tag: where its value begins and how long it is, or number, place and tag of its refusal.
// Any bytes, row and table of kinds may be lent; that the tag before them is the row's, and that the table is the right one, is the caller's to see to.
// A place fits a byte, so that no sum of places is too large.
#![tactic(auto)]

ghost use Rattle.std.specs.Prelude.{◌≡◌, ◌+◌, ◌<◌};
ghost use Rattle.rules.specs.Values.{verdict_told};
ghost use Rattle.objects.specs.Objects.{found_told, entry_at, object_by, valued, found_of};

use edition::Row;
use objects::{Found, Refused};
use rules::Fault;

// The answer for row k's value, by how it stands to its rule.
fn weigh(k: usize, start: usize, n: usize, verdict: Result<(), Fault>) -> Result<Found, Refused>
    requires { start + (verdict_told verdict).index < 65536 }
    ensures { found_told result ≡ found_told (valued k start n verdict) }
{
    match verdict {
        Ok(()) => Ok(Found {
            row: k,
            start,
            length: n,
        }),
        Err(Fault::Outside(i)) => Err(Refused {
            number: 9,
            place: start + i,
            tag: edition_tags::tag_of(k),
        }),
        Err(Fault::Breaks) => Err(Refused {
            number: 10,
            place: start,
            tag: edition_tags::tag_of(k),
        }),
    }
}

// Row k's object, whose tag stands at a place; the part begins behind it.
pub fn read_object(
    part: &[u8],
    place: u8,
    k: usize,
    row: Row,
    kinds: &[u8],
) -> Result<Found, Refused>
    ensures { found_told result ≡ found_told (found_of k place (object_by kinds.now (entry_at k row) place part.now)) }
{
    let at = place as usize;
    if part.len() == 0 {
        return Err(Refused {
            number: 8,
            place: at,
            tag: edition_tags::tag_of(k),
        });
    }
    let n = part[0];
    if !edition_lengths::permits(row.lengths, n) {
        return Err(Refused {
            number: 7,
            place: at + 1,
            tag: edition_tags::tag_of(k),
        });
    }
    let stop = 1 + n as usize;
    if part.len() < stop {
        return Err(Refused {
            number: 8,
            place: at,
            tag: edition_tags::tag_of(k),
        });
    }
    let rule = row.rule;
    let verdict = rules_kinds::judge_by(kinds, rule, &part[1..stop]);
    weigh(k, at + 2, n as usize, verdict)
}
