// Maps and marks that say 1 where something holds of a pair and 0 elsewhere: where some allowed vector shows a difference, of outputs or of
// watched values, where a map holds 0, where it holds more. And which vector to take to show a difference.
#![tactic(auto)]

ghost use Rattle.std.specs.Prelude.{◌≡◌, ◌<◌, ◌≤◌, length, get_or};
ghost use Rattle.machine.specs.Meaning.Tables.{pairs, In, tables_in};
ghost use Rattle.numbers.specs.Meaning.Count.{count_of};
ghost use Rattle.memory.specs.Working.Tests.{Tells};
ghost use Rattle.places.specs.Working.{OutsIn, SeensIn, ChosenBelow};
ghost use Rattle.flags.specs.Working.{DifferentIn, DiffersAtIn, Flagged};

use machine::{Pair, TablesRef};

// The map becomes 1 where some allowed vector shows a difference, and 0 elsewhere.
pub fn differ(tables: &TablesRef<'_>, map: &mut [u16])
    requires outs { OutsIn (tables_in tables.now) }
    requires seens { SeensIn (tables_in tables.now) }
    requires sizes_in_bounds { pairs tables.now.sizes ≤ length map.old }
    ensures { Flagged (DiffersAtIn (tables_in tables.now)) (pairs tables.now.sizes) map.old map.new }
{
    for i in 0..places::total(tables.sizes) {
        let p = places::pair_at(tables.sizes, i);
        map[i] = u16::from(chosen_different(tables, p, None).is_some());
    }
}

// The vector to take to show a difference at the pair p: that of the step before, where it is allowed and shows one, and else the lowest
// allowed.
pub fn chosen_different(tables: &TablesRef<'_>, p: Pair, prior: Option<usize>) -> Option<usize>
    requires outs { OutsIn (tables_in tables.now) }
    requires seens { SeensIn (tables_in tables.now) }
    requires pair_in { In tables.now.sizes p }
    ensures { ChosenBelow prior (DifferentIn (tables_in tables.now) p) tables.now.sizes.vectors result }
{
    places::taken(tables.sizes.vectors, prior, |v| shows(tables, p, v))
}

// The first n entries of a map become 1 where they are 0, and 0 elsewhere.
pub fn flag_zeros(entries: &mut [u16], n: usize)
    requires { n ≤ length entries.old }
    ensures { Flagged (λ q. get_or entries.old q 0 ≡ 0) n entries.old entries.new }
{
    for entry in &mut entries[..n] {
        *entry = u16::from(*entry == 0);
    }
}

// The first n marks become 1 where the map holds more than 0, and 0 elsewhere: how many become 1. By an index, since a proof knows
// nothing of what is written through an adapter of `iter_mut`.
pub fn mark_positive(map: &[u16], n: usize, mark: &mut [u8]) -> usize
    requires n_in_bounds { n ≤ length map.now }
    requires n_in_bounds_2 { n ≤ length mark.old }
    requires n_bound { n ≤ 16384 }
    ensures flagged { Flagged (λ q. 0 < get_or map.now q 0) n mark.old mark.new }
    ensures value { result ≡ count_of 1 mark.new n }
{
    let mut count = 0;
    for i in 0..n {
        let reached = map[i] > 0;
        mark[i] = u8::from(reached);
        count += usize::from(reached);
    }
    count
}

// Whether the vector v is allowed, and shows different outputs or watched values at the pair p.
fn shows(tables: &TablesRef<'_>, p: Pair, v: usize) -> bool
    requires outs { OutsIn (tables_in tables.now) }
    requires seens { SeensIn (tables_in tables.now) }
    requires pair_in { In tables.now.sizes p }
    requires v_lt_vectors { v < tables.now.sizes.vectors }
    ensures { Tells result (DifferentIn (tables_in tables.now) p v) }
{
    let sizes = tables.sizes;
    if !places::allows(sizes, v) {
        return false;
    }
    let i = places::place_of(p.old, v, sizes.old, sizes.vectors);
    let j = places::place_of(p.new, v, sizes.new, sizes.vectors);
    tables.old.out[i] != tables.new.out[j] || tables.old.seen[i] != tables.new.seen[j]
}
