// The steps of a trace over the tables of both designs.
ghost use Rattle.std.specs.Prelude.{◌+◌, ◌*◌, ◌<◌, ◌≤◌, ◌≡◌, length};
ghost use Rattle.machine.specs.Meaning.Tables.{entry, tables_in};
ghost use Rattle.places.specs.Working.{move_in};
ghost use Rattle.pieces.specs.Working.Put.{Put};
ghost use Rattle.report.specs.Working.Tracing.{shown_in, Small};

use crate::lines;
use machine::{Pair, Sizes, TablesRef};
use pieces::Text;

// A line for each vector of the list: the vector and what both designs show, before they move on.
pub fn put_steps(tables: &TablesRef<'_>, p: Pair, list: &[u8], text: &mut Text<'_>)
    requires small { Small tables.now.sizes p }
    requires room { text.old.end + (12 * length list.now + 51) ≤ length text.old.bytes.now }
    ensures { Put (12 * length list.now) (shown_in (tables_in tables.now) p list.now) text.old text.new }
{
    let mut q = p;
    for byte in list {
        let vector = usize::from(*byte);
        let old = entry_at(tables.old.out, tables.sizes, q.old, vector);
        let new = entry_at(tables.new.out, tables.sizes, q.new, vector);
        lines::put_step(vector, old, new, text);
        q = next_pair(tables, q, vector);
    }
}

// The pair after one step of both designs.
fn next_pair(tables: &TablesRef<'_>, p: Pair, vector: usize) -> Pair
    requires small { Small tables.now.sizes p }
    requires vector_bound { vector < 256 }
    ensures { (result ≡ move_in (tables_in tables.now) p vector) × Small tables.now.sizes result }
{
    Pair {
        old: entry_at(tables.old.next, tables.sizes, p.old, vector),
        new: entry_at(tables.new.next, tables.sizes, p.new, vector),
    }
}

// The entry of a table for a state and a vector, 0 past its end.
fn entry_at(table: &[u8], sizes: Sizes, state: usize, vector: usize) -> usize
    requires vectors_bound { sizes.vectors ≤ 64 }
    requires state_bound { state < 256 }
    requires vector_bound { vector < 256 }
    ensures { (result ≡ entry sizes table.now state vector) × (result < 256) }
{
    match table.get(state * sizes.vectors + vector) {
        Some(byte) => usize::from(*byte),
        None => 0,
    }
}
