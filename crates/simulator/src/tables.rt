// The tables of a design.
ghost use Rattle.std.specs.Prelude.{◌≡◌, ◌≤◌};
ghost use Rattle.memory.specs.Meaning.Refusals.{Checked};
ghost use Rattle.memory.specs.Meaning.Tables.{held_in, lengths_of, shortest_of, ZeroTable, SameTable};
ghost use Rattle.netlist.specs.Working.Sound.{Sound};
ghost use Rattle.simulator.specs.Meaning.Tables.{size_of, InterfaceFault};
ghost use Rattle.simulator.specs.Working.Filling.{Fillable, FilledTables};
ghost use Rattle.simulator.specs.Working.Preparing.{Prepares};

use memory::{Refusal, TableMut};
use netlist::Design;
use order::Plan;
use watched::Watch;

// What tabulating a design needs: an order of its kept cells, and its watched nets.
#[derive(Clone, Copy)]
pub struct Prepared {
    pub plan: Plan,
    pub watch: Watch,
}

// What filling the tables of a design needs, or the first number that applies where the shortest slice has some room.
#[tactic(auto, using(crate::proofs::Preparing::prepare_is))]
pub(crate) fn prepare(d: Design, watch: &[u16], room: usize) -> Result<Prepared, Refusal>
    ensures { Prepares d watch.now room result }
{
    let plan = order::levelize(d);
    let ((), watch) = memory::both(plan.answer, watched::take(d, watch))?;
    if room < size(d) {
        return Err(Refusal::ShortSlice);
    }
    Ok(Prepared { plan, watch })
}

// What keeps two designs from being compared: 10 where their inputs or outputs differ in number, 21 where their watched nets do.
pub(crate) fn interface(
    old: Design,
    new: Design,
    old_watch: &[u16],
    new_watch: &[u16],
) -> Result<(), Refusal>
    ensures { Checked (InterfaceFault old new old_watch.now new_watch.now) result }
{
    if old.inputs != new.inputs || old.outputs != new.outputs {
        return Err(Refusal::OtherInterface);
    }
    if old_watch.len() != new_watch.len() {
        return Err(Refusal::OtherWatched);
    }
    Ok(())
}

// Every clock of a design, in cleared slices.
#[tactic(auto, using(crate::proofs::Filling::fill_is))]
pub(crate) fn fill(d: Design, prepared: Prepared, table: &mut TableMut<'_>)
    requires fillable { Fillable d prepared (shortest_of (lengths_of (held_in table.old))) }
    requires zero_table { ZeroTable (held_in table.old) }
    ensures filled { FilledTables d prepared.watch (lengths_of (held_in table.old)) (size_of d) (held_in table.new) }
    ensures same_slices { SameTable table.old table.new }
{
    let vectors = evaluator::power(d.inputs);
    for k in 0..size(d) {
        let t = evaluator::observe(d, prepared.plan, prepared.watch, k / vectors, k % vectors);
        table.next[k] = t.next;
        table.out[k] = t.out;
        table.seen[k] = t.seen;
    }
}

// Entries of a table.
fn size(d: Design) -> usize
    requires { Sound d }
    ensures { (result ≡ size_of d) × (result ≤ 65536) }
{
    evaluator::power(d.latches) * evaluator::power(d.inputs)
}
