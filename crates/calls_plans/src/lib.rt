// The calls on a rewriting: its plan, and the check of anyone's plan; on tables, images and steps as lent bytes and words.
// Anything may be lent: any word is a step, and what has not its size is refused with a number.
// A table of another size is told behind the sizes of the images.
#![tactic(auto)]

ghost use Rattle.std.specs.Prelude.{◌≡◌, length};
ghost use Rattle.calls_plans.specs.Pulling.{no_table, kvk_plan, kvk_plan_room, kvk_check_plan};

use card::Refusal;

// What is told where the table has not its size.
fn refuse_table(old: usize, new: usize) -> Refusal
    ensures { result ≡ no_table old new }
{
    let refusal = rewriting::refuse_sizes(old, new);
    if refusal.number != 0 {
        return refusal;
    }
    Refusal::new(2, 0, 0)
}

// Plans the steps from the old image to the new one into a room of 257 words; the value of the answer is how many there are.
pub fn plan(table: &[u8], old: &[u8], new: &[u8], room: &mut [u32]) -> u64
    ensures value { result ≡ kvk_plan table.now old.now new.now room.old }
    ensures room_after { room.new ≡ kvk_plan_room table.now old.now new.now room.old }
{
    if room.len() != 257 {
        return wire::pack(Refusal::new(20, 0, 0));
    }
    if table.len() != 103 {
        return wire::pack(refuse_table(old.len(), new.len()));
    }
    let made = planning::plan(wire_tables::edition_of(table), old, new, room);
    wire::pack_value(made.refusal, made.count)
}

// Checks a plan, of which any word is a step; the value of the answer is 1 for yes and 0 for no.
pub fn check_plan(table: &[u8], old: &[u8], new: &[u8], steps: &[u32]) -> u64
    ensures { result ≡ kvk_check_plan table.now old.now new.now steps.now }
{
    if table.len() != 103 {
        return wire::pack(refuse_table(old.len(), new.len()));
    }
    let checked = rewriting::check_plan(wire_tables::edition_of(table), old, new, steps);
    wire::pack_value(checked.refusal, checked.safe as usize)
}
