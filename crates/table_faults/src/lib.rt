// What turns a call away that takes the tables of two designs: sizes out of range, a slice too short, a next state that is no state, a
// number that allows no vector or one that there is not. No number looks into what a design shows, so of its outputs and watched values
// only the length of the shorter table is taken.
#![tactic(auto)]

ghost use Rattle.std.specs.Prelude.{◌*◌, ◌≤◌, length};
ghost use Rattle.memory.specs.Meaning.Refusals.{Checked};
ghost use Rattle.memory.specs.Working.Tests.{Splits, Tells};
ghost use Rattle.machine.specs.Meaning.Allowed.{WrongAllowed};
ghost use Rattle.machine.specs.Meaning.Faults.{OutOfRange, TooShort, LeadsOut, TablesFault, VectorsFault};
ghost use Rattle.machine.specs.Meaning.Tables.{tables_in};
ghost use Rattle.table_faults.specs.Working.{ForTablesIn, TakenFrom, InRange, LongEnough, Stays};

use machine::{Sizes, TablesRef};
use memory::Refusal;

// The next states of two designs, and how many entries the shorter of each design's other two tables has.
#[derive(Clone, Copy)]
pub struct NextStates<'a> {
    pub sizes: Sizes,
    pub old_next: &'a [u8],
    pub new_next: &'a [u8],
    pub old_shown: usize,
    pub new_shown: usize,
}

impl<'a> NextStates<'a> {
    // Those of the tables.
    pub fn of(tables: &TablesRef<'a>) -> NextStates<'a>
        ensures { TakenFrom (tables_in tables.now) result }
    {
        NextStates {
            sizes: tables.sizes,
            old_next: tables.old.next,
            new_next: tables.new.next,
            old_shown: tables.old.out.len().min(tables.old.seen.len()),
            new_shown: tables.new.out.len().min(tables.new.seen.len()),
        }
    }
}

// The first number that applies to the tables, the lent slices of one entry a pair and the allowed vectors.
pub fn vectors_fault(states: &NextStates<'_>, room: usize) -> Result<(), Refusal>
    ensures { ForTablesIn states.now (λ t. Checked (VectorsFault t room) result) }
{
    call_fault(states, room)?;
    if wrong_allowed(states.sizes) {
        return Err(Refusal::WrongAllowed);
    }
    Ok(())
}

// 20: the number allows none of the V vectors, or one beyond them.
pub fn wrong_allowed(sizes: Sizes) -> bool
    ensures { Tells result (WrongAllowed sizes) }
{
    sizes.allowed == 0 || sizes.vectors < 64 && sizes.allowed >> sizes.vectors != 0
}

// The first number that applies to the tables and the lent slices of one entry a pair.
pub fn call_fault(states: &NextStates<'_>, room: usize) -> Result<(), Refusal>
    ensures { ForTablesIn states.now (λ t. Checked (TablesFault t room) result) }
{
    let sizes = states.sizes;
    if out_of_range(sizes) {
        return Err(Refusal::SizesOut);
    }
    if too_short(states, room) {
        return Err(Refusal::ShortSlice);
    }
    if leads_out(states.old_next, sizes.old, sizes.vectors)
        || leads_out(states.new_next, sizes.new, sizes.vectors)
    {
        return Err(Refusal::LeadsOut);
    }
    Ok(())
}

// 11: S or V is out of range.
fn out_of_range(sizes: Sizes) -> bool
    ensures { Splits result (OutOfRange sizes) (InRange sizes) }
{
    sizes.old == 0
        || sizes.old > 128
        || sizes.new == 0
        || sizes.new > 128
        || sizes.vectors == 0
        || sizes.vectors > 64
}

// 12: a table, or the shortest of the slices of one entry a pair, is too short.
fn too_short(states: &NextStates<'_>, room: usize) -> bool
    requires { InRange states.now.sizes }
    ensures { Splits result (ForTablesIn states.now (λ t. TooShort t room)) (LongEnough states.now room) }
{
    let sizes = states.sizes;
    states.old_next.len().min(states.old_shown) < sizes.old * sizes.vectors
        || states.new_next.len().min(states.new_shown) < sizes.new * sizes.vectors
        || room < sizes.old * sizes.new
}

// 13: a next state is not below the number of states.
fn leads_out(next: &[u8], states: usize, vectors: usize) -> bool
    requires states_bound { states ≤ 128 }
    requires vectors_bound { vectors ≤ 64 }
    requires vectors_in_bounds { states * vectors ≤ length next.now }
    ensures { Splits result (LeadsOut states vectors next.now) (Stays states vectors next.now) }
{
    next[..states * vectors]
        .iter()
        .any(|s| usize::from(*s) >= states)
}
