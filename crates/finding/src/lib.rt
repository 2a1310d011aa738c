// The trace or list of one pair, by a map that is right.
#![tactic(auto)]

ghost use Rattle.std.specs.Prelude.{◌≡◌, ◌≤◌, length};
ghost use Rattle.machine.specs.Meaning.Tables.{pairs, at, In, tables_in};
ghost use Rattle.machine.specs.Working.Pairs.{DiffersIn};
ghost use Rattle.places.specs.Working.{WalkIn, ReadyIn, Good, MapFor, ListToIn, Outcome, TraceOutcome};

use machine::{Pair, TablesRef};
use memory::Refusal;

// The trace of the pair p, by the map of the lists to pairs that show a difference: how many steps it has.
pub fn find_trace(
    tables: &TablesRef<'_>,
    p: Pair,
    map: &[u16],
    list: &mut [u8],
) -> Result<usize, Refusal>
    requires good { Good (tables_in tables.now) }
    requires sizes_in_bounds { pairs tables.now.sizes ≤ length map.now }
    requires map_for { MapFor (tables_in tables.now) (DiffersIn (tables_in tables.now)) map.now }
    requires pair_in { In tables.now.sizes p }
    ensures { TraceOutcome (tables_in tables.now) p list.old list.new result }
{
    let steps = places::map_at(tables.sizes, map, p);
    if steps == 0 {
        return Err(Refusal::NothingSought);
    }
    if list.len() < steps {
        return Err(Refusal::ShortList);
    }
    let end = descent::descend(tables, map, p, None, list);
    let prior = places::prior_at(list, steps - 1);
    let Some(v) = flags::chosen_different(tables, end, prior) else {
        unreachable!();
    };
    list[steps - 1] = v as u8;
    Ok(steps)
}

// The list from the pair p to a pair for which the map holds 1; for p it holds one more than the steps of this list.
pub fn find_list(
    tables: &TablesRef<'_>,
    p: Pair,
    prior: Option<usize>,
    map: &[u16],
    list: &mut [u8],
) -> Result<usize, Refusal>
    requires walk { WalkIn (tables_in tables.now) map.now }
    requires ready { ReadyIn (tables_in tables.now) map.now }
    requires pair_in { In tables.now.sizes p }
    ensures { Outcome (at tables.now.sizes map.now p ≡ 0) (ListToIn (tables_in tables.now) map.now prior p) list.old list.new result }
{
    let above = places::map_at(tables.sizes, map, p);
    if above == 0 {
        return Err(Refusal::NothingSought);
    }
    if list.len() < above - 1 {
        return Err(Refusal::ShortList);
    }
    descent::descend(tables, map, p, prior, list);
    Ok(above - 1)
}
