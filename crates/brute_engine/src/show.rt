// Printing words and numbers, and a disagreement.
use crate::ask::Question;
use crate::compare::Told;
use crate::tables::{Machines, Table};
use machine::Pair;

pub(crate) fn words(words: &[u8]) {
    io::write_all(1, words);
}

// Prints words and a number.
pub(crate) fn item(words: &[u8], n: usize) {
    io::write_all(1, words);
    io::print_decimal(1, n as u64);
}

// Prints what was asked, and of which machines.
pub(crate) fn question(m: &Machines, question: Question, room: usize) {
    words(b"DISAGREEMENT ON ");
    match question {
        Question::MapAlike => words(b"THE MAP OF ALIKE PAIRS"),
        Question::MapAlignable => words(b"THE MAP OF ALIGNABLE PAIRS"),
        Question::Trace(pair) => of_pair(b"THE TRACE OF PAIR ", pair),
        Question::List(pair) => of_pair(b"THE LIST OF PAIR ", pair),
        Question::Verdict => words(b"THE VERDICT"),
    }
    item(b", BYTES LENT ", room);
    item(b"\n  STATES ", m.sizes.old);
    item(b" ", m.sizes.new);
    item(b", VECTORS ", m.sizes.vectors);
    item(b", ALLOWED ", (m.sizes.allowed % 8) as usize);
    table(b"\n  OLD", &m.old);
    table(b"\n  NEW", &m.new);
    words(b"\n");
}

fn of_pair(words: &[u8], pair: Pair) {
    item(words, pair.old);
    item(b" ", pair.new);
}

// Prints the tables of a machine.
fn table(name: &[u8], table: &Table) {
    words(name);
    bytes(b"\n    NEXT", &table.next);
    bytes(b"\n    OUT ", &table.out);
    bytes(b"\n    SEEN", &table.seen);
}

// Prints an answer and the bytes that it leaves.
pub(crate) fn told(name: &[u8], told: &Told) {
    let a = &told.answer;
    let (old, new) = a.apart.unwrap_or((0, 0));
    words(name);
    item(b" REFUSED ", usize::from(a.refused.unwrap_or(0)));
    item(b", STEPS ", a.steps);
    item(b", ROUND ", a.round);
    item(b", ALIKE ", a.alike);
    item(b", ALIGNABLE ", a.alignable);
    item(b", APART ", usize::from(a.apart.is_some()));
    item(b" ", old);
    item(b" ", new);
    item(b", SCRATCH NOT ZERO ", a.dirty);
    bytes(b"\n   SLICE", &told.bytes);
    words(b"\n");
}

// Prints words and the bytes of a slice.
fn bytes(name: &[u8], slice: &[u8]) {
    words(name);
    for byte in slice {
        item(b" ", usize::from(*byte));
    }
}
