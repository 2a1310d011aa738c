// One clock of a design, and the tables of all its clocks.
#![tactic(auto)]

mod tables;

ghost use Rattle.memory.specs.Meaning.Tables.{held_in, lengths_of, SameTable};
ghost use Rattle.simulator.specs.Meaning.Clock.{Clocks};
ghost use Rattle.simulator.specs.Meaning.Tables.{Tabulates, TabulatesBoth};

pub use evaluator::Stepped;
use memory::{Refusal, TableMut};
use netlist::Design;

// One clock of a design from a state under a vector.
pub fn clock(d: Design, state: usize, vector: usize) -> Result<Stepped, Refusal>
    ensures { Clocks d state vector result }
{
    let plan = order::levelize(d);
    plan.answer?;
    if evaluator::power(d.latches) <= state || evaluator::power(d.inputs) <= vector {
        return Err(Refusal::StateOver);
    }
    Ok(evaluator::step(d, plan, state, vector))
}

// How many states and how many vectors a table is for.
#[derive(Clone, Copy)]
pub struct TableSizes {
    pub states: usize,
    pub vectors: usize,
}

// Writes the next state, the output and the watched value of every clock of a design with watched nets beside it.
pub fn tabulate(d: Design, watch: &[u16], table: &mut TableMut<'_>) -> Result<TableSizes, Refusal>
    ensures tabulates { Tabulates d watch.now (lengths_of (held_in table.old)) result (held_in table.new) }
    ensures same_slices { SameTable table.old table.new }
{
    let prepared = tables::prepare(d, watch, table.room());
    table.clear();
    let prepared = prepared?;
    tables::fill(d, prepared, table);
    Ok(TableSizes {
        states: evaluator::power(d.latches),
        vectors: evaluator::power(d.inputs),
    })
}

// How many states each of two designs has, and how many vectors both have.
#[derive(Clone, Copy)]
pub struct BothSizes {
    pub old: usize,
    pub new: usize,
    pub vectors: usize,
}

// The same for two designs that are to be compared; the watched nets of the one answer to those of the other.
pub fn tabulate_both(
    old: Design,
    new: Design,
    old_watch: &[u16],
    new_watch: &[u16],
    old_table: &mut TableMut<'_>,
    new_table: &mut TableMut<'_>,
) -> Result<BothSizes, Refusal>
    ensures tabulates_both { TabulatesBoth old new old_watch.now new_watch.now
        (lengths_of (held_in old_table.old)) (lengths_of (held_in new_table.old)) result
        (held_in old_table.new) (held_in new_table.new) }
    ensures same_old { SameTable old_table.old old_table.new }
    ensures same_new { SameTable new_table.old new_table.new }
{
    let old_prepared = tables::prepare(old, old_watch, old_table.room());
    let new_prepared = tables::prepare(new, new_watch, new_table.room());
    let either = memory::both(old_prepared, new_prepared);
    let prepared = memory::both(either, tables::interface(old, new, old_watch, new_watch));
    old_table.clear();
    new_table.clear();
    let ((old_prepared, new_prepared), ()) = prepared?;
    tables::fill(old, old_prepared, old_table);
    tables::fill(new, new_prepared, new_table);
    Ok(BothSizes {
        old: evaluator::power(old.latches),
        new: evaluator::power(new.latches),
        vectors: evaluator::power(old.inputs),
    })
}
