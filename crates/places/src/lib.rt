// Places in tables and maps: numbers of pairs, the pair after a step, and the step before an entry of a list; which vectors are allowed, and
// which of those that pass a test is taken.
#![tactic(auto)]

ghost use Rattle.std.specs.Prelude.{◌≡◌, ℕ, ◌<◌, ◌≤◌, true, false, length, take, None};
ghost use Rattle.machine.specs.Meaning.Pick.{after};
ghost use Rattle.machine.specs.Meaning.Tables.{pairs, at, In, Ok, tables_in};
ghost use Rattle.memory.specs.Working.Tests.{Tells};
ghost use Rattle.machine.specs.Working.Pairs.{pair_at};
ghost use Rattle.places.specs.Working.{Few, NextsIn, PlaceOf, move_in, TakenBy};

use machine::{Pair, Sizes, TablesRef};

// The place of column v in row s of a table of n rows of m columns.
pub fn place_of(s: usize, v: usize, n: usize, m: usize) -> usize
    requires s_lt_n { s < n }
    requires v_lt_m { v < m }
    requires n_bound { n ≤ 128 }
    requires m_bound { m ≤ 128 }
    ensures { PlaceOf s v n m result }
{
    s * m + v
}

// How many pairs there are.
pub fn total(sizes: Sizes) -> usize
    requires { Few sizes }
    ensures { (result ≡ pairs sizes) × (result ≤ 16384) }
{
    sizes.old * sizes.new
}

// The pair that has number i.
pub fn pair_at(sizes: Sizes, i: usize) -> Pair
    requires { i < pairs sizes }
    ensures { (result ≡ pair_at sizes i) × In sizes result }
{
    Pair {
        old: i / sizes.new,
        new: i % sizes.new,
    }
}

// Whether the vector v is allowed.
pub fn allows(sizes: Sizes, v: usize) -> bool
    requires v_lt_vectors { v < sizes.vectors }
    requires vectors_bound { sizes.vectors ≤ 64 }
    ensures { Tells result (Ok sizes v) }
{
    (sizes.allowed >> v) % 2 == 1
}

// The pair after one step of both designs.
pub fn next(tables: &TablesRef<'_>, p: Pair, v: usize) -> Pair
    requires nexts { NextsIn (tables_in tables.now) }
    requires pair_in { In tables.now.sizes p }
    requires v_lt_vectors { v < tables.now.sizes.vectors }
    ensures { (result ≡ move_in (tables_in tables.now) p v) × In tables.now.sizes result }
{
    let sizes = tables.sizes;
    let i = place_of(p.old, v, sizes.old, sizes.vectors);
    let j = place_of(p.new, v, sizes.new, sizes.vectors);
    Pair {
        old: usize::from(tables.old.next[i]),
        new: usize::from(tables.new.next[j]),
    }
}

// What the map holds for a pair.
pub fn map_at(sizes: Sizes, map: &[u16], p: Pair) -> usize
    requires few { Few sizes }
    requires pair_in { In sizes p }
    requires sizes_in_bounds { pairs sizes ≤ length map.now }
    ensures { result ≡ at sizes map.now p }
{
    usize::from(map[place_of(p.old, p.new, sizes.old, sizes.new)])
}

// What comes before entry n of a list that nothing comes before.
pub fn prior_at(list: &[u8], n: usize) -> Option<usize>
    requires { n ≤ length list.now }
    ensures { result ≡ after None (take n list.now) }
{
    list[..n].last().map(|v| usize::from(*v))
}

// Of the n lowest vectors that pass a test the one to take: that of the step before, where it passes, and else the lowest.
pub fn taken<F: Fn(usize) -> bool>(n: usize, prior: Option<usize>, test: F) -> Option<usize>
    requires { (v : ℕ) → v < n → F.pre test v }
    ensures { TakenBy (λ v. F.post test v true) (λ v. F.post test v false) n prior result }
{
    if let Some(u) = prior {
        if u < n && test(u) {
            return prior;
        }
    }
    (0..n).find(
        |v|
            requires { F.pre test v.now }
        { test(*v) },
    )
}
