// The numbers of a question, each by its place.
ghost use Rattle.std.specs.Prelude.{◌<◌};

use crate::designs;
use machine::Pair;

// The most numbers of a question.
pub(crate) const MOST: usize = 40;

// The numbers, of which so many are given and the others are 0.
#[derive(Clone, Copy)]
pub(crate) struct Numbers {
    pub list: [u16; MOST],
    pub given: usize,
}

// How many entries the table slices of a design have.
#[derive(Clone, Copy)]
pub(crate) struct TableLengths {
    pub next: u16,
    pub out: u16,
    pub seen: u16,
}

// How many entries both scratch slices, and a list or mark slice, have.
#[derive(Clone, Copy)]
pub(crate) struct PairLengths {
    pub depth: u16,
    pub reach: u16,
    pub list: u16,
}

impl Numbers {
    pub(crate) fn at(&self, place: usize) -> u16 {
        self.list.get(place).copied().unwrap_or(0)
    }

    // What the slices hold at entry: of an entry that is a byte the most that it holds, where the number is more.
    pub(crate) fn held(&self) -> u8 {
        designs::low(self.at(0))
    }

    // The lengths of table slices, the first of which stands at a place.
    pub(crate) fn table_lengths(&self, place: usize) -> TableLengths
        requires { place < 40 }
    {
        TableLengths {
            next: self.at(place),
            out: self.at(place + 1),
            seen: self.at(place + 2),
        }
    }

    // Those of scratch and of a list, which stand behind the lengths of two tables.
    pub(crate) fn pair_lengths(&self) -> PairLengths {
        PairLengths {
            depth: self.at(7),
            reach: self.at(8),
            list: self.at(9),
        }
    }

    // The numbers from one place up to another, or none.
    pub(crate) fn part(&self, from: usize, to: usize) -> &[u16] {
        self.list.get(from..to).unwrap_or(&[])
    }

    // The pair of which a trace or list is asked.
    pub(crate) fn pair(&self) -> Pair {
        Pair {
            old: usize::from(self.at(13)),
            new: usize::from(self.at(14)),
        }
    }

    // The number that names the allowed vectors, whose four parts stand from a place on; where none is given, one that allows all.
    pub(crate) fn allowed(&self, place: usize, vectors: u32) -> u64
        requires { place < 40 }
    {
        if self.given <= place {
            return 1u64.checked_shl(vectors).unwrap_or(0).wrapping_sub(1);
        }
        (place..place + 4).fold(0, |parts, k| parts << 16 | u64::from(self.at(k)))
    }
}
