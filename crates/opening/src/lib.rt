// What a map, and a call for one pair, does first: it looks for what turns it away, and clears the slices that it is lent. What a design
// shows plays no part in it, so of the tables it takes what `table_faults` looks at.
#![tactic(auto)]

ghost use Rattle.memory.specs.Meaning.Refusals.{Checked};
ghost use Rattle.memory.specs.Meaning.Slices.{SameScratch};
ghost use Rattle.machine.specs.Meaning.Faults.{VectorsFault, StateFault};
ghost use Rattle.machine.specs.Meaning.Lent.{scratch_of, room_of, lent_in, left_in};
ghost use Rattle.table_faults.specs.Working.{ForTablesIn};
ghost use Rattle.opening.specs.Working.{Emptied};

use machine::Pair;
use memory::{Refusal, Scratch};
use table_faults::NextStates;

// Begins a map: the first number that turns it away, and every lent slice cleared.
pub fn begin_map(
    states: &NextStates<'_>,
    scratch: &mut Scratch<'_>,
    mark: &mut [u8],
) -> Result<(), Refusal>
    ensures checked { ForTablesIn states.now (λ t. Checked (VectorsFault t (room_of (lent_in scratch.old mark.old))) result) }
    ensures emptied { Emptied (lent_in scratch.old mark.old) (left_in scratch.new mark.new) }
    ensures same_slices { SameScratch scratch.old scratch.new }
{
    let room = mark.len().min(scratch.room());
    scratch.clear();
    mark.fill(0);
    table_faults::vectors_fault(states, room)
}

// Begins a call for a pair: the first of 11 to 14 and 20 that turns it away, and every lent slice cleared.
pub fn begin_pair(
    states: &NextStates<'_>,
    pair: Pair,
    scratch: &mut Scratch<'_>,
    list: &mut [u8],
) -> Result<(), Refusal>
    ensures checked { ForTablesIn states.now (λ t. Checked (StateFault t (scratch_of (lent_in scratch.old list.old)) pair) result) }
    ensures emptied { Emptied (lent_in scratch.old list.old) (left_in scratch.new list.new) }
    ensures same_slices { SameScratch scratch.old scratch.new }
{
    let room = scratch.room();
    scratch.clear();
    list.fill(0);
    pair_fault(states, pair, room)
}

// The first of 11 to 14 and 20 that applies to a call for a pair.
fn pair_fault(states: &NextStates<'_>, pair: Pair, room: usize) -> Result<(), Refusal>
    ensures { ForTablesIn states.now (λ t. Checked (StateFault t room pair) result) }
{
    table_faults::call_fault(states, room)?;
    if pair.old >= states.sizes.old || pair.new >= states.sizes.new {
        return Err(Refusal::StateOver);
    }
    if table_faults::wrong_allowed(states.sizes) {
        return Err(Refusal::WrongAllowed);
    }
    Ok(())
}
