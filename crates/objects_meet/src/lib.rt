// What a row meets at a place: nothing of its own, which it may; its object; or a refusal.
// Any bytes, row and table of kinds may be lent; that the table is the right one is the caller's to see to.
// A row that is not required passes any byte that is not its tag: what is left behind the last row is refused there.
#![tactic(auto)]

ghost use Rattle.std.specs.Prelude.{◌≡◌, suc, drop};
ghost use Rattle.edition.specs.Rows.{tags};
ghost use Rattle.objects.specs.Objects.{entry_at, look_by, here, met_of};

use card::Refusal;
use edition::Row;
use objects::Met;

// Whether row k's tag stands at the head of a part.
fn is_here(part: &[u8], k: usize) -> bool
    ensures { result ≡ here k part.now }
{
    if part.len() == 0 {
        return false;
    }
    part[0] == edition_tags::tag_of(k)
}

// What row k meets at a place, where a part is left of the template.
pub fn meet_row(
    part: &[u8],
    place: u8,
    k: usize,
    row: Row,
    kinds: &[u8],
) -> Result<Option<Met>, Refusal>
    ensures { result ≡ met_of place (look_by kinds.now (entry_at k row) (drop (suc k) tags) place part.now) }
{
    if is_here(part, k) {
        return match objects_read::read_object(&part[1..], place, k, row, kinds) {
            Ok(found) => Ok(Some(Met {
                start: found.start,
                length: found.length,
            })),
            Err(refused) => Err(objects_refusals::refuse(
                row.lengths,
                refused.number,
                refused.place,
                refused.tag,
            )),
        };
    }
    if row.required {
        return Err(objects_refusals::refuse_missing(part, place as usize, k));
    }
    Ok(None)
}
