// The list of a pair, down a map that is right: each step is chosen by the one before.
#![tactic(auto)]

ghost use Rattle.std.specs.Prelude.{◌<◌};
ghost use Rattle.machine.specs.Meaning.Tables.{In, tables_in};
ghost use Rattle.memory.specs.Working.Tests.{Tells};
ghost use Rattle.places.specs.Working.{ChosenBelow, WalkIn, ReadyIn};
ghost use Rattle.descent.specs.Working.{ToIn, Descent, DescendedIn};

use machine::{Pair, TablesRef};

// Writes the list from the pair p to the ones of a map that is right, each step chosen by the one before, and gives the pair where it
// leads.
pub fn descend(
    tables: &TablesRef<'_>,
    map: &[u16],
    p: Pair,
    prior: Option<usize>,
    list: &mut [u8],
) -> Pair
    requires walk { WalkIn (tables_in tables.now) map.now }
    requires ready { ReadyIn (tables_in tables.now) map.now }
    requires descent { Descent tables.now.sizes map.now p list.old }
    ensures descended { DescendedIn (tables_in tables.now) map.now p prior list.old list.new result }
    ensures pair_in { In tables.now.sizes result }
{
    let steps = places::map_at(tables.sizes, map, p) - 1;
    let mut q = p;
    let mut last = prior;
    for j in 0..steps {
        let Some(v) = chosen(tables, map, steps - j, q, last) else {
            unreachable!();
        };
        list[j] = v as u8;
        q = places::next(tables, q, v);
        last = Some(v);
    }
    q
}

// The vector to take from the pair p to a pair for which the map holds k: that of the step before, where it is allowed and leads there,
// and else the lowest allowed.
fn chosen(
    tables: &TablesRef<'_>,
    map: &[u16],
    k: usize,
    p: Pair,
    prior: Option<usize>,
) -> Option<usize>
    requires walk { WalkIn (tables_in tables.now) map.now }
    requires pair_in { In tables.now.sizes p }
    ensures { ChosenBelow prior (ToIn (tables_in tables.now) map.now k p) tables.now.sizes.vectors result }
{
    places::taken(tables.sizes.vectors, prior, |v| lands(tables, map, k, p, v))
}

// Whether the vector v is allowed, and leads from the pair p to a pair for which the map holds k.
fn lands(tables: &TablesRef<'_>, map: &[u16], k: usize, p: Pair, v: usize) -> bool
    requires walk { WalkIn (tables_in tables.now) map.now }
    requires pair_in { In tables.now.sizes p }
    requires v_lt_vectors { v < tables.now.sizes.vectors }
    ensures { Tells result (ToIn (tables_in tables.now) map.now k p v) }
{
    if !places::allows(tables.sizes, v) {
        return false;
    }
    let q = places::next(tables, p, v);
    places::map_at(tables.sizes, map, q) == k
}
