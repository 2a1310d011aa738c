// Printing: answers, and slices with runs of one value in short.
use engine::AlikeCount;
use image::Reading;
use memory::{Refusal, Scratch, TableMut};
use order::Plan;
use simulator::{BothSizes, Stepped, TableSizes};
use verdict::{Judged, Verdict};

pub(crate) fn word(text: &[u8]) {
    io::write_all(1, text);
}

// A word and a number.
pub(crate) fn item(word: &[u8], n: usize) {
    io::write_all(1, word);
    io::print_decimal(1, n as u64);
}

// What a call answers: a refusal by its number, and anything else as it is shown.
pub(crate) fn answer<T, F: FnOnce(T)>(answer: Result<T, Refusal>, shown: F)
    requires { F.IsAlwaysCallable shown }
{
    match answer {
        Ok(value) => shown(value),
        Err(reason) => item(b"refused ", usize::from(reason.number())),
    }
}

// A word and the number of a refusal, 0 where there is none.
pub(crate) fn refusal(word: &[u8], answer: Result<(), Refusal>) {
    let number = answer.err().map_or(0, |reason| reason.number());
    item(word, usize::from(number));
}

// What reading an image answers, with the sizes of the design beside it.
pub(crate) fn reading(r: Reading) {
    answer(r.answer, |_| word(b"accepted"));
    let d = r.design;
    item(b", sizes ", usize::from(d.inputs));
    item(b" ", usize::from(d.latches));
    item(b" ", usize::from(d.outputs));
    item(b" ", usize::from(d.count));
}

pub(crate) fn plan(plan: Plan) {
    refusal(b"number ", plan.answer);
    item(b" kept ", plan.kept);
    let cells = plan.cells;
    entries(&cells);
}

pub(crate) fn bytes(n: usize) {
    item(b"bytes ", n);
}

pub(crate) fn step(step: Stepped) {
    item(b"next ", usize::from(step.next));
    item(b" output ", usize::from(step.out));
}

pub(crate) fn sizes(sizes: TableSizes) {
    item(b"states ", sizes.states);
    item(b" vectors ", sizes.vectors);
}

pub(crate) fn both_sizes(sizes: BothSizes) {
    item(b"states ", sizes.old);
    item(b" and ", sizes.new);
    item(b" vectors ", sizes.vectors);
}

pub(crate) fn alike(marked: AlikeCount) {
    item(b"marked ", marked.count);
    item(b" round ", marked.round);
}

pub(crate) fn marked(count: usize) {
    item(b"marked ", count);
}

pub(crate) fn steps(n: usize) {
    item(b"steps ", n);
}

pub(crate) fn judged(judged: Judged) {
    answer(judged.verdict, verdict);
    item(b" alike ", judged.alike);
    item(b" alignable ", judged.alignable);
}

fn verdict(verdict: Verdict) {
    match verdict {
        Verdict::Same(n) => item(b"same ", n),
        Verdict::Apart(pair, n) => {
            item(b"apart ", pair.old);
            item(b" ", pair.new);
            item(b" ", n);
        }
    }
}

// Shows the three table slices of a design.
pub(crate) fn table(table: &TableMut<'_>) {
    entries(table.next);
    entries(table.out);
    entries(table.seen);
}

// Shows both scratch slices.
pub(crate) fn scratch(scratch: &Scratch<'_>) {
    entries(scratch.depth);
    entries(scratch.reach);
}

// Shows an image, in hexadecimal behind an x.
pub(crate) fn image(image: &[u8]) {
    io::write_all(1, b" | x");
    runs(image, |value| {
        io::print_hex(1, value, 2);
    });
}

// Shows a slice.
pub(crate) fn entries<T: Copy + Into<u64> + PartialEq>(list: &[T]) {
    io::write_all(1, b" | ");
    runs(list, |value| {
        io::print_decimal(1, value);
    });
}

// How many runs of a slice are shown.
const MOST_RUNS: usize = 64;

// Shows the runs of one value in a slice, with a comma between two, and the sum of all entries where there are more runs than are shown.
fn runs<T: Copy + Into<u64> + PartialEq, F: Fn(u64)>(list: &[T], spell: F)
    requires { F.IsAlwaysCallable spell }
{
    if list.is_empty() {
        io::write_all(1, b"00*0");
    }
    for (place, run) in list.chunk_by(|a, b| a == b).enumerate() {
        if place == MOST_RUNS {
            io::write_all(1, b",.. sum ");
            io::print_decimal(1, sum(list));
            return;
        }
        if place > 0 {
            io::write_all(1, b",");
        }
        spell(run[0].into());
        if run.len() > 1 {
            item(b"*", run.len());
        }
    }
}

// A sum of entries in which each counts by where it stands.
fn sum<T: Copy + Into<u64>>(list: &[T]) -> u64 {
    list.iter().fold(
        0,
        |sum, entry| (sum % PRIME * 31 + (*entry).into() % ENTRY) % PRIME,
    )
}

const PRIME: u64 = 1000000007;

// More than an entry can be.
const ENTRY: u64 = 65536;
