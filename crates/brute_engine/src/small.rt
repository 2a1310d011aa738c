// Every pair of machines that have 1 or 2 states each, the same 1 or 2 vectors and one bit that is shown, under every number that allows some
// of these vectors and no other. A pair of machines is a number of 19 bits: 4 for each table, an entry a bit, and 3 for the sizes; of these
// numbers some have a bit that no machine of the sizes has. In turn the bit is shown as an output, as a watched value, and as an output under
// vector 0 and a watched value under vector 1, which makes no difference to what is alike.
use crate::compare::compare;
use crate::tables::{ENTRIES, Machines, Table};
use crate::tally::Tally;
use machine::Sizes;

const NUMBERS: usize = 1 << 19;

// Compares on all of them.
pub(crate) fn compare_all(tally: &mut Tally) {
    for n in 0..NUMBERS {
        let old = n / 65536 % 2 + 1;
        let new = n / 131072 % 2 + 1;
        let vectors = n / 262144 % 2 + 1;
        if is_machine(old, vectors, n % 256) && is_machine(new, vectors, n / 256 % 256) {
            compare_allowed(old, new, vectors, n, tally);
        }
    }
}

// Compares under each of the numbers: 1 of one vector; 1, 2 and 3 of two.
fn compare_allowed(old: usize, new: usize, vectors: usize, n: usize, tally: &mut Tally) {
    for allowed in 1..4 {
        if vectors == 2 || allowed == 1 {
            let sizes = Sizes {
                old,
                new,
                vectors,
                allowed,
            };
            compare(&make(sizes, n), tally);
        }
    }
}

// Whether no bit is set that a machine of these sizes does not have, of 4 bits for the next states and 4 for the outputs. Where there is one
// state, it is the next one.
fn is_machine(states: usize, vectors: usize, bits: usize) -> bool {
    let next = bits / 16;
    let out = bits % 16;
    match (states, vectors) {
        (1, 1) => next == 0 && out < 2,
        (1, _) => next == 0 && out < 4,
        (_, 1) => next < 4 && out < 4,
        _ => true,
    }
}

// The tables of two machines.
fn make(sizes: Sizes, n: usize) -> Machines {
    let out_bits = match (n % 3, sizes.vectors) {
        (0, _) => 15,
        (1, _) => 0,
        (_, 2) => 5,
        _ => 15,
    };
    Machines {
        sizes,
        old: tables_of(n, out_bits),
        new: tables_of(n / 256, out_bits),
    }
}

// The tables of which a number has the shown bits and the next states in its lowest eight bits. Those shown as outputs are named by bits of
// another number, and the others are watched values.
fn tables_of(n: usize, out_bits: usize) -> Table {
    Table {
        next: table_of(n / 16),
        out: table_of(n & out_bits),
        seen: table_of(n & !out_bits),
    }
}

// The table whose entries are the lowest four bits of a number.
fn table_of(n: usize) -> [u8; ENTRIES] {
    let mut table = [0u8; ENTRIES];
    for (i, entry) in table.iter_mut().take(4).enumerate() {
        *entry = (n >> i & 1) as u8;
    }
    table
}
