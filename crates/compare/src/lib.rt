// Two designs to a verdict: their tables are written, and judged. A refusal that comes only then clears the tables again.
#![tactic(auto)]

ghost use Rattle.memory.specs.Meaning.Tables.{held_in, lengths_of, SameTable};
ghost use Rattle.memory.specs.Meaning.Slices.{SameScratch};
ghost use Rattle.machine.specs.Meaning.Lent.{lent_in, left_in};
ghost use Rattle.machine.specs.Meaning.Tables.{tables_of};
ghost use Rattle.compare.specs.Meaning.Comparing.{tables_lent_of, tables_left_of, Compares};
ghost use Rattle.compare.specs.Working.Judging.{JudgedOrCleared};

use machine::{Sizes, TablesRef};
use memory::{Scratch, TableMut};
use netlist::Design;
use verdict::Judged;

// The verdict on two designs, with the nets that are watched beside each, whose inputs show allowed vectors alone; with its list or trace
// and the counts of alike and of alignable pairs, and the tables of both.
pub fn compare(
    old: Design,
    new: Design,
    old_watch: &[u16],
    new_watch: &[u16],
    allowed: u64,
    old_table: &mut TableMut<'_>,
    new_table: &mut TableMut<'_>,
    scratch: &mut Scratch<'_>,
    list: &mut [u8],
) -> Judged
    ensures compares { Compares old new old_watch.now new_watch.now allowed
        (tables_lent_of (lengths_of (held_in old_table.old)) (lengths_of (held_in new_table.old))) (lent_in scratch.old list.old)
        (tables_left_of (held_in old_table.new) (held_in new_table.new)) (left_in scratch.new list.new) result }
    ensures same_old { SameTable old_table.old old_table.new }
    ensures same_new { SameTable new_table.old new_table.new }
    ensures same_slices { SameScratch scratch.old scratch.new }
{
    let tabulated = simulator::tabulate_both(old, new, old_watch, new_watch, old_table, new_table);
    match tabulated {
        Err(reason) => {
            scratch.clear();
            list.fill(0);
            verdict::refused(reason)
        }
        Ok(counts) => {
            let sizes = Sizes {
                old: counts.old,
                new: counts.new,
                vectors: counts.vectors,
                allowed,
            };
            judge_or_clear(sizes, old_table, new_table, scratch, list)
        }
    }
}

// The verdict on two tables, which are cleared beside a refusal.
fn judge_or_clear(
    sizes: Sizes,
    old_table: &mut TableMut<'_>,
    new_table: &mut TableMut<'_>,
    scratch: &mut Scratch<'_>,
    list: &mut [u8],
) -> Judged
    ensures judged { JudgedOrCleared (tables_of sizes (held_in old_table.old) (held_in new_table.old)) (lent_in scratch.old list.old)
        (tables_left_of (held_in old_table.new) (held_in new_table.new)) (left_in scratch.new list.new) result }
    ensures same_old { SameTable old_table.old old_table.new }
    ensures same_new { SameTable new_table.old new_table.new }
    ensures same_slices { SameScratch scratch.old scratch.new }
{
    let tables = TablesRef {
        sizes,
        old: old_table.as_ref(),
        new: new_table.as_ref(),
    };
    let judged = verdict::judge(&tables, scratch, list);
    if judged.verdict.is_err() {
        old_table.clear();
        new_table.clear();
    }
    judged
}
