// Compares the calls on designs and on images with a second way that shares no code with them. The product sorts the cells and sweeps over
// them once; here the value of a net is found by recursion through the cells that drive it. The product takes an image field by field; here
// a second reader and writer work on single bits, and each number has its own test over the whole image.
#![tactic(auto)]

mod compare;
mod draw;
mod images;
mod plain;
mod recursion;
mod show;
mod tally;
mod watch;

ghost use Rattle.std.specs.Prelude.{◌≤◌};

use compare::Answer;
use draw::Chance;
use images::Bits;
use plain::Plain;
use tally::{Tally, What};

// Compares two pairs of designs, an image and a chain a round, and prints what was compared. The chains have from 1 to 256 cells, and are
// open and then closed.
fn main() {
    let mut tally = Tally::new();
    let mut chance = Chance { state: 2463534242 };
    for round in 0..512 {
        pair(&mut chance, &mut tally);
        pair(&mut chance, &mut tally);
        drawn_image(&mut chance, round, &mut tally);
        let chain = draw::chain(&mut chance, (round % 256) as u16 + 1, 256 <= round);
        compare::design(&chain, &mut tally);
    }
    tally.print();
}

// Two designs of few cells, mostly with the same inputs and outputs.
fn pair(chance: &mut Chance, tally: &mut Tally) {
    let mut old = Plain::empty();
    draw::sizes(chance, 5, 17, &mut old);
    let mut new = Plain::empty();
    draw::sizes(chance, 5, 17, &mut new);
    let kept = chance.below(8);
    if kept != 0 {
        new.put(plain::INPUTS, old.inputs());
    }
    if kept != 1 {
        new.put(plain::OUTPUTS, old.outputs());
    }
    let old = any_design(chance, &old);
    let new = any_design(chance, &new);
    let old_number = compare::design(&old, tally);
    let new_number = compare::design(&new, tally);
    compare::both(&old, old_number, &new, new_number, tally);
}

// A design of the sizes of a list: some have loops, some are spoiled, and half hold numbers beyond their sizes.
fn any_design(chance: &mut Chance, sizes: &Plain) -> Plain {
    let mut list = *sizes;
    let loops = chance.one_in(8);
    let litter = 600 * chance.below(2);
    draw::fill(chance, loops, litter, &mut list);
    let way = chance.below(8);
    let place = match chance.below(9) {
        0 => plain::INPUTS + chance.below(4),
        1 => plain::CELLS + chance.below(3 * list.count()),
        2 => plain::DATA + chance.below(29),
        _ => plain::NUMBERS,
    };
    draw::spoiled(&list, place, way)
}

// Writes a design into some slices, with and without numbers beyond its sizes, and reads its image, whole and damaged. Half of the images
// that are damaged are in version 2 whether or not version 1 can hold them. The first rounds have as many cells as their number says, the
// others few; of these every second gets a loop before it is spoiled.
fn drawn_image(chance: &mut Chance, round: usize, tally: &mut Tally) {
    let mut list = Plain::empty();
    draw::sizes(chance, 7, 7, &mut list);
    let small = 257 <= round;
    if !small {
        list.put(plain::COUNT, round);
    }
    let mut littered = list;
    let mut same = *chance;
    draw::fill(&mut same, false, 600, &mut littered);
    draw::fill(chance, false, 0, &mut list);
    rooms(&list, tally);
    rooms(&littered, tally);
    let mut bits = Bits::of(&list);
    let n = images::bytes(&list);
    let whole = Answer {
        told: [n, 0, 0],
        ..Answer::default()
    };
    compare::reads(What::Read, &bits, n, &list, whole, tally);
    if chance.one_in(2) {
        list.put(plain::VERSION, 2);
        bits = Bits::of(&list);
    }
    let n = images::bytes(&list);
    flips(chance, &mut bits, n, small, tally);
    lengths(&mut bits, n, tally);
    if small {
        if round % 2 == 0 {
            list.put(plain::CELLS + 1, list.first_cell());
        }
        spoils(&list, tally);
    }
}

// Writes a design into slices that are too short, just long enough, and longer.
fn rooms(list: &Plain, tally: &mut Tally) {
    let n = images::bytes(list);
    for length in [0, n.wrapping_sub(1), n, n + 1, images::BYTES] {
        compare::writing(What::Write, list, length, tally);
    }
}

// Reads an image with each bit flipped by itself, or twenty drawn ones, and with a drawn one besides. Each change is taken back.
fn flips(chance: &mut Chance, bits: &mut Bits, n: usize, each: bool, tally: &mut Tally)
    requires { n ≤ 500000 }
{
    for k in 0..8 * n {
        if each || k < 20 {
            let place = if each { k } else { chance.below(8 * n) };
            let other = chance.below(8 * n);
            bits.flip(place);
            compare::reading(What::Flipped, bits, n, tally);
            bits.flip(other);
            compare::reading(What::Flipped, bits, n, tally);
            bits.flip(other);
            bits.flip(place);
        }
    }
}

// Reads an image cut at every length, whole, and with one byte behind it, 0 and not 0.
fn lengths(bits: &mut Bits, n: usize, tally: &mut Tally)
    requires { n ≤ 500000 }
{
    compare::reading(What::Cut, bits, n + 1, tally);
    bits.flip(8 * n + 1);
    for k in 0..n + 2 {
        compare::reading(What::Cut, bits, k, tally);
    }
}

// Spoils in eight ways each number in use and each net of a flip-flop, also of one beyond the sizes, and writes the design into slices just
// long enough for its sizes and a byte short.
fn spoils(list: &Plain, tally: &mut Tally) {
    for way in 8..8 * plain::NUMBERS {
        let place = way / 8;
        let latch = plain::DATA <= place && place < plain::SHOWN;
        if latch || list.width(place) != 0 {
            let spoiled = draw::spoiled(list, place, way % 8);
            let n = images::bytes(&spoiled);
            compare::writing(What::Spoiled, &spoiled, n, tally);
            compare::writing(What::Spoiled, &spoiled, n.wrapping_sub(1), tally);
        }
    }
}
