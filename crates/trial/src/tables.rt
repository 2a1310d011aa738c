// Slices that are lent to calls: room for them, and tables that bytes hold.
use crate::asked::Question;
use crate::given::{PairLengths, TableLengths};
use machine::{Sizes, TablesRef};
use memory::{Scratch, TableMut, TableRef};

// More entries than a slice that is lent has.
pub(crate) const MOST: usize = 65536;

// Bytes for the slices of a table, and for the slices of bytes that are lent for pairs. Who asks has them as arrays of his own: a struct of
// arrays that a function makes is copied when it is handed back.
pub(crate) const TABLE: usize = 3 * MOST;

pub(crate) const PAIRS: usize = 2 * MOST;

// The front of room, to be written.
pub(crate) fn front<T>(room: &mut [T; MOST], length: u16) -> &mut [T] {
    &mut room[..usize::from(length)]
}

// The table slices of a design.
pub(crate) fn table(room: &mut [u8; TABLE], lengths: TableLengths) -> TableMut<'_> {
    let (next, rest) = room.split_at_mut(usize::from(lengths.next));
    let (out, rest) = rest.split_at_mut(usize::from(lengths.out));
    let seen = &mut rest[..usize::from(lengths.seen)];
    TableMut { next, out, seen }
}

// Both scratch slices, and a list or mark slice.
#[derive(Drop)]
pub(crate) struct Lent<'a> {
    pub scratch: Scratch<'a>,
    pub list: &'a mut [u8],
}

pub(crate) fn pair<'a>(
    bytes: &'a mut [u8; PAIRS],
    reach: &'a mut [u16; MOST],
    lengths: PairLengths,
) -> Lent<'a> {
    let (depth, rest) = bytes.split_at_mut(usize::from(lengths.depth));
    Lent {
        scratch: Scratch {
            depth,
            reach: front(reach, lengths.reach),
        },
        list: &mut rest[..usize::from(lengths.list)],
    }
}

// The tables that the bytes of a question hold, if these are as many as their lengths say.
pub(crate) fn tables_of<'a>(q: &Question<'a>) -> Option<TablesRef<'a>> {
    let n = &q.numbers;
    let (old, rest) = table_at(q.bytes, n.table_lengths(1))?;
    let (new, rest) = table_at(rest, n.table_lengths(4))?;
    if !rest.is_empty() {
        return None;
    }
    let vectors = n.at(12);
    let sizes = Sizes {
        old: usize::from(n.at(10)),
        new: usize::from(n.at(11)),
        vectors: usize::from(vectors),
        allowed: n.allowed(15, u32::from(vectors)),
    };
    Some(TablesRef { sizes, old, new })
}

// The table at the front of bytes, and what stands behind it.
fn table_at(bytes: &[u8], lengths: TableLengths) -> Option<(TableRef<'_>, &[u8])> {
    let (next, rest) = bytes.split_at_checked(usize::from(lengths.next))?;
    let (out, rest) = rest.split_at_checked(usize::from(lengths.out))?;
    let (seen, rest) = rest.split_at_checked(usize::from(lengths.seen))?;
    Some((TableRef { next, out, seen }, rest))
}
