// The states that a card goes through under a plan.
ghost use Rattle.std.specs.Prelude.{◌≡◌, ◌&&◌, leb, length};
ghost use Rattle.rewriting.specs.Plans.{address_of, step};
ghost use Rattle.rewriting.specs.Checking.{passes, plan_test};

use edition::Edition;

// Whether a card may be pulled in a state.
fn may_be(edition: Edition, old: &[u8], new: &[u8], state: &[u8]) -> bool
    ensures { result ≡ passes edition old.now new.now state.now }
{
    if ground_parts::is_same(state, old) {
        return true;
    }
    if ground_parts::is_same(state, new) {
        return true;
    }
    let refusal = reader_places::places(edition, state).refusal;
    refusal.number != 0
}

// Takes one step, and answers whether it is to an address of the card and to a state in which a card may be pulled.
fn take_step(edition: Edition, old: &[u8], new: &[u8], word: u32, state: &mut [u8]) -> bool
    requires { length state.old ≡ 256 }
    ensures value { result ≡ leb (address_of word) 255 && passes edition old.now new.now (step state.old word) }
    ensures state_after { state.new ≡ step state.old word }
{
    let address = (word / 256) as usize;
    if address > 255 {
        return false;
    }
    state[address] = (word % 256) as u8;
    may_be(edition, old, new, state)
}

fn take_steps(edition: Edition, old: &[u8], new: &[u8], steps: &[u32], state: &mut [u8]) -> bool
    requires { length state.old ≡ 256 }
    ensures { result ≡ plan_test edition old.now new.now state.old steps.now }
{
    for word in steps {
        if !take_step(edition, old, new, *word, state) {
            return false;
        }
    }
    ground_parts::is_same(state, new)
}

// Takes all steps from the old image on, which is copied once.
pub(crate) fn run(edition: Edition, old: &[u8], new: &[u8], steps: &[u32]) -> bool
    requires { length old.now ≡ 256 }
    ensures { result ≡ plan_test edition old.now new.now old.now steps.now }
{
    let mut state = [0u8; 256];
    ground_room::put(&mut state, 0, old);
    take_steps(edition, old, new, steps, &mut state)
}
