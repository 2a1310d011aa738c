// Two machines under the same vectors, in the tables that the calls take: entry s × V + v of `next`, `out` and `seen` is for state s and
// vector v.
use machine::{Pair, Sizes, TablesRef};
use memory::TableRef;

// The most entries of a machine's table: 4 states and 3 vectors.
pub(crate) const ENTRIES: usize = 12;

// The tables of one machine.
#[derive(Clone, Copy)]
pub(crate) struct Table {
    pub(crate) next: [u8; ENTRIES],
    pub(crate) out: [u8; ENTRIES],
    pub(crate) seen: [u8; ENTRIES],
}

impl Table {
    fn lend(&self) -> TableRef<'_> {
        TableRef {
            next: &self.next,
            out: &self.out,
            seen: &self.seen,
        }
    }
}

#[derive(Clone, Copy)]
pub(crate) struct Machines {
    pub(crate) sizes: Sizes,
    pub(crate) old: Table,
    pub(crate) new: Table,
}

impl Machines {
    pub(crate) fn lend(&self) -> TablesRef<'_> {
        TablesRef {
            sizes: self.sizes,
            old: self.old.lend(),
            new: self.new.lend(),
        }
    }
}

// Row × width + column, of few rows and columns.
pub(crate) fn place(row: usize, width: usize, column: usize) -> usize {
    row.wrapping_mul(width).wrapping_add(column)
}

// The pair of states that has a number.
pub(crate) fn pair_at(sizes: Sizes, number: usize) -> Pair {
    Pair {
        old: number.checked_div(sizes.new).unwrap_or(0),
        new: number.checked_rem(sizes.new).unwrap_or(0),
    }
}
