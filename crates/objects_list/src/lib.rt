// The objects of a template, read in card order into the table of places.
// Any bytes, rows and address may be lent; whether the edition is well formed is the reader's to ask.
// 12 is told here, 11 by the reader: the sums are asked of a whole table.
#![tactic(auto)]

ghost use Rattle.std.specs.Prelude.{◌≡◌, cond, ◌+◌, ◌≤◌, eqb, length};
ghost use Rattle.rules.specs.Kinds.{kind_table};
ghost use Rattle.edition.specs.Rows.{tags};
ghost use Rattle.card.specs.Refusals.{none};
ghost use Rattle.card.specs.Rules.{entries};
ghost use Rattle.card.specs.Walk.{walk};
ghost use Rattle.card.specs.Places.{no_places};
ghost use Rattle.objects.specs.Objects.{table_of, listed};

use card::{Places, Refusal};
use edition::Row;

// The table with a refusal, and else with the places that were found.
fn close(refusal: Refusal, starts: [u8; 16], lengths: [u8; 16]) -> Places
    ensures { result ≡ cond (eqb refusal.number 0) (record { refusal = none; starts = starts; lengths = lengths }) (no_places refusal) }
{
    if refusal.number != 0 {
        return Places::refused(refusal);
    }
    Places {
        refusal: Refusal::none(),
        starts,
        lengths,
    }
}

// The rows of a template whose bytes begin at the address `from`: the sixteen objects, and the checksum, whose place is not kept.
fn list_rows(template: &[u8], rows: [Row; 17], from: usize, kinds: &[u8]) -> Places
    requires { (from ≤ 33) × (length template.now ≤ 212) × (kinds.now ≡ kind_table) }
    ensures { result ≡ table_of from (from + length template.now) (walk (entries tags rows) from template.now) }
{
    let mut starts = [0u8; 16];
    let mut lengths = [0u8; 16];
    let mut i: usize = 0;
    for (k, row) in rows.iter().enumerate() {
        let met = match objects_meet::meet_row(&template[i..], (from + i) as u8, k, *row, kinds) {
            Ok(Some(met)) => met,
            Ok(None) => continue,
            Err(refusal) => return Places::refused(refusal),
        };
        i = i + 2 + met.length;
        if k < 16 {
            starts[k] = met.start as u8;
            lengths[k] = met.length as u8;
        }
    }
    let rest = objects_refusals::refuse_rest(template.len() - i, from + i);
    close(rest, starts, lengths)
}

// Reads the objects of a template whose bytes begin at the address `from`; number 1 for one that no card has.
pub fn list_objects(template: &[u8], rows: [Row; 17], from: usize) -> Places
    ensures { result ≡ listed template.now rows from }
{
    if (from <= 33) & (template.len() <= 212) {
        let kinds = rules_kinds::kinds();
        return list_rows(template, rows, from, &kinds);
    }
    Places::refused(Refusal::new(1, 0, 0))
}
