// What the product answers, held against what the second way finds.
use crate::images::{BYTES, Bits};
use crate::plain::Plain;
use crate::tally::{Tally, What};
use crate::watch::Watch;
use crate::{images, plain, recursion, show, watch};
use image::Reading;
use memory::{Refusal, TableMut};

// The number of a refusal; of what length_of answers to an image; three numbers more, 0 where there are fewer; and the first place at which
// the tables, the bytes or the design are not what is expected. The three are states and vectors; next state, output and entry of a clock;
// states of both and vectors; bytes of the image and of the slice; bytes that the header gives.
#[derive(Clone, Copy, Default, PartialEq)]
pub struct Answer {
    pub refused: Option<u8>,
    pub unmeasured: Option<u8>,
    pub told: [usize; 3],
    pub wrong: Option<usize>,
}

// What the product tells, or why it refuses.
fn told<T, F: FnOnce(T) -> [usize; 3]>(answer: Result<T, Refusal>, numbers: F) -> Answer
    requires { F.IsAlwaysCallable numbers }
{
    match answer {
        Ok(value) => Answer {
            told: numbers(value),
            ..Answer::default()
        },
        Err(reason) => refused(Some(reason.number())),
    }
}

fn refused(refused: Option<u8>) -> Answer {
    Answer {
        refused,
        ..Answer::default()
    }
}

// The number that is expected, or these three where there is none.
fn expected(refused: Option<u8>, told: [usize; 3]) -> Answer {
    Answer {
        refused,
        told: if refused.is_none() { told } else { [0; 3] },
        ..Answer::default()
    }
}

// Counts a comparison. A difference is printed with its design, if it is one of the first few; then the result is true.
fn judge(what: What, list: &Plain, found: Answer, expected: Answer, tally: &mut Tally) -> bool {
    tally.count(what, expected.refused, list.version());
    if found == expected || !tally.disagree() {
        return false;
    }
    show::disagreement(what, found, expected);
    show::numbers(list);
    true
}

// Compares the number of a design, its tables and its clocks, and hands back the number.
pub fn design(list: &Plain, tally: &mut Tally) -> Option<u8> {
    let number = recursion::number(list);
    let fault = told(order::fault_of(list.design()), |_| [0; 3]);
    judge(What::Fault, list, fault, expected(number, [0; 3]), tally);
    tabulation(list, number, tally);
    clocks(list, number, tally);
    number
}

// Compares what tabulating a design with watched nets answers and writes.
fn tabulation(list: &Plain, own: Option<u8>, tally: &mut Tally) {
    let side = Side::of(list, own, watch::many(list));
    let wanted = expected(
        side.number,
        [power(list.latches()), power(list.inputs()), 0],
    );
    let mut room = TableRoom::filled();
    let tabulated = simulator::tabulate(list.design(), side.watch.nets(), &mut room.lend());
    let found = Answer {
        wrong: room.first_wrong(&side, side.number),
        ..told(tabulated, |sizes| [sizes.states, sizes.vectors, 0])
    };
    judge(What::Tabulate, list, found, wanted, tally);
}

// A design, the nets that are watched beside it, and the first number that applies to both.
#[derive(Clone, Copy)]
struct Side<'a> {
    list: &'a Plain,
    watch: Watch,
    number: Option<u8>,
}

impl Side<'_> {
    // A design that has a number of its own, with so many nets.
    fn of(list: &Plain, own: Option<u8>, many: usize) -> Side<'_> {
        let watch = Watch::of(list, many);
        Side {
            list,
            watch,
            number: watch.number(list, own),
        }
    }
}

// Room for the tables of a design.
#[derive(Clone, Copy)]
struct TableRoom {
    next: [u8; BYTES],
    out: [u8; BYTES],
    seen: [u8; BYTES],
}

impl TableRoom {
    // Room that holds other things at first.
    fn filled() -> TableRoom {
        TableRoom {
            next: [7; BYTES],
            out: [7; BYTES],
            seen: [7; BYTES],
        }
    }

    fn lend(&mut self) -> TableMut<'_> {
        let TableRoom { next, out, seen } = self;
        TableMut { next, out, seen }
    }

    // The first entry that is not what the recursion finds: 0 beyond the entries, and all 0 beside a number.
    fn first_wrong(&self, side: &Side<'_>, number: Option<u8>) -> Option<usize> {
        let entries = entries(side.list, number);
        let watched = match number {
            None => side.watch.shown(side.list),
            Some(_) => *side.list,
        };
        let many = side.watch.nets().len();
        for k in 0..BYTES {
            let mut step = Step { next: 0, out: 0 };
            let mut seen = 0;
            if k < entries {
                step = stepped(side.list, k);
                seen = recursion::word(&watched, k, plain::SHOWN, 1, many);
            }
            if self.next[k] != low(step.next)
                || self.out[k] != low(step.out)
                || self.seen[k] != low(seen)
            {
                return Some(k);
            }
        }
        None
    }
}

fn low(number: usize) -> u8 {
    (number % 256) as u8
}

// How many numbers so many bits have.
fn power(bits: usize) -> usize {
    1 << (bits % 8)
}

// How many entries the tables of a design have: none beside a number.
fn entries(list: &Plain, number: Option<u8>) -> usize {
    if number.is_some() {
        return 0;
    }
    1 << ((list.latches() + list.inputs()) % 16)
}

// A next state and an output.
#[derive(Clone, Copy)]
struct Step {
    next: usize,
    out: usize,
}

// The next state and the output of an entry. The bits of all flip-flops are taken at once: those of the data where enabled, those held
// elsewhere, and of these none that is cleared.
fn stepped(list: &Plain, entry: usize) -> Step {
    let latches = list.latches();
    let data = recursion::word(list, entry, plain::DATA, 3, latches);
    let enable = recursion::word(list, entry, plain::ENABLE, 3, latches);
    let clear = recursion::word(list, entry, plain::CLEAR, 3, latches);
    let held = entry >> (list.inputs() % 8);
    let taken = (data & enable) | (held & !enable);
    Step {
        next: taken & !clear,
        out: recursion::word(list, entry, plain::SHOWN, 1, list.outputs()),
    }
}

// Compares every clock, and the refusal of a state and of a vector one too high; of a design with a number only these two.
fn clocks(list: &Plain, number: Option<u8>, tally: &mut Tally) {
    let entries = entries(list, number);
    let inputs = list.inputs() % 8;
    for k in 0..entries {
        let state = k >> inputs;
        let vector = k.wrapping_sub(state << inputs);
        let step = stepped(list, k);
        clock(
            list,
            state,
            vector,
            expected(None, [step.next, step.out, k]),
            tally,
        );
    }
    let states = power(list.latches());
    let vectors = power(list.inputs());
    let high = expected(number.or(Some(14)), [0; 3]);
    clock(list, states, 0, high, tally);
    clock(list, 0, vectors, high, tally);
}

// Compares one clock.
fn clock(list: &Plain, state: usize, vector: usize, expected: Answer, tally: &mut Tally) {
    let entry = expected.told[2];
    let found = told(simulator::clock(list.design(), state, vector), |step| {
        [usize::from(step.next), usize::from(step.out), entry]
    });
    judge(What::Clock, list, found, expected, tally);
}

// Compares what tabulating two designs, which have these numbers, answers and writes. Mostly as many nets of the one are watched as of the
// other.
pub fn both(
    old: &Plain,
    old_number: Option<u8>,
    new: &Plain,
    new_number: Option<u8>,
    tally: &mut Tally,
) {
    let old_many = watch::many(old);
    let new_many = if new.count() % 8 == 3 {
        watch::many(new)
    } else {
        old_many
    };
    let old_side = Side::of(old, old_number, old_many);
    let new_side = Side::of(new, new_number, new_many);
    let number = pair_number(&old_side, &new_side);
    let wanted = expected(
        number,
        [
            power(old.latches()),
            power(new.latches()),
            power(old.inputs()),
        ],
    );
    let found = tabulated_both(&old_side, &new_side, number);
    if judge(What::Both, old, found, wanted, tally) {
        show::numbers(new);
    }
}

// The number of two designs of which each with its watched nets has a number, 3, 5, 9 or 21, or none: 10 and 21 of the pair come behind 9.
fn pair_number(old: &Side<'_>, new: &Side<'_>) -> Option<u8> {
    let number = match (old.number, new.number) {
        (Some(a), Some(b)) => Some(a.min(b)),
        (a, b) => a.or(b),
    };
    if number.is_some_and(|number| number < 10) {
        return number;
    }
    if old.list.inputs() != new.list.inputs() || old.list.outputs() != new.list.outputs() {
        return Some(10);
    }
    if old.watch.nets().len() != new.watch.nets().len() {
        return Some(21);
    }
    number
}

// What tabulating two designs answers, and how far the tables of each are what the recursion finds.
fn tabulated_both(old: &Side<'_>, new: &Side<'_>, number: Option<u8>) -> Answer {
    let mut old_room = TableRoom::filled();
    let mut new_room = TableRoom::filled();
    let tabulated = simulator::tabulate_both(
        old.list.design(),
        new.list.design(),
        old.watch.nets(),
        new.watch.nets(),
        &mut old_room.lend(),
        &mut new_room.lend(),
    );
    let new_wrong = new_room.first_wrong(new, number);
    Answer {
        wrong: old_room.first_wrong(old, number).or(new_wrong),
        ..told(tabulated, |sizes| [sizes.old, sizes.new, sizes.vectors])
    }
}

// Writes a design into a slice of n bytes both ways, and compares the answer and the slice with the bytes behind it, which stay.
pub fn writing(what: What, list: &Plain, n: usize, tally: &mut Tally) {
    let length = images::bytes(list);
    let number = recursion::number(list).or((n < length).then_some(12));
    let mut wanted = [165u8; BYTES];
    let mut room = [165u8; BYTES];
    let (Some(image), Some(slice)) = (wanted.get_mut(..n), room.get_mut(..n)) else {
        return;
    };
    let bits = match number {
        None => Bits::of(list),
        Some(_) => Bits::zero(),
    };
    bits.pack(image);
    let found = told(writer::write(list.design(), slice), |length| [length, n, 0]);
    let found = Answer {
        wrong: images::first_difference(&wanted, &room),
        ..found
    };
    judge(what, list, found, expected(number, [length, n, 0]), tally);
}

// Reads and measures the first n bytes both ways. The design beside a refusal is empty.
pub fn reading(what: What, bits: &Bits, n: usize, tally: &mut Tally) {
    let taken = bits.list();
    let number = images::number(bits, n, &taken);
    let unmeasured = number.filter(|number| *number <= 4);
    let length = if unmeasured.is_none() {
        images::bytes(&taken)
    } else {
        0
    };
    let mut list = taken;
    if number.is_some() {
        list = Plain::empty();
        list.put(plain::VERSION, taken.version());
    }
    let wanted = Answer {
        refused: number,
        unmeasured,
        told: [length, 0, 0],
        wrong: None,
    };
    reads(what, bits, n, &list, wanted, tally);
}

// Compares what the product answers to the first n bytes, the design beside it, and what it writes again of an accepted design.
pub fn reads(what: What, bits: &Bits, n: usize, list: &Plain, expected: Answer, tally: &mut Tally) {
    let mut room = [0u8; BYTES];
    let Some(image) = room.get_mut(..n) else {
        return;
    };
    bits.pack(image);
    if judge(what, list, read(image, list), expected, tally) {
        show::bytes(image);
    }
}

// What the product answers to an image: the number, the length, and where its design, or the bytes that it writes of an accepted one, first
// differ from what is expected.
fn read(image: &[u8], list: &Plain) -> Answer {
    let measured = told(image::length_of(image), |length| [length, 0, 0]);
    let reading = image::read(image);
    let answer = told(reading.answer, |_| [0; 3]);
    let wrong = Plain::of(reading.design).first_difference(list);
    Answer {
        refused: answer.refused,
        unmeasured: measured.refused,
        wrong: wrong.or(rewritten(reading, image)),
        ..measured
    }
}

// Where the bytes that are written of an accepted design first differ from its image.
fn rewritten(reading: Reading, image: &[u8]) -> Option<usize> {
    reading.answer.ok()?;
    let mut room = [0u8; BYTES];
    let again = room.get_mut(..image.len())?;
    let _ = writer::write(reading.design, again);
    images::first_difference(again, image)
}
