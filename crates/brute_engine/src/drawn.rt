// Pairs of machines of 3 or 4 states each and 1 to 3 vectors, some or all of them allowed, drawn by a fixed generator. At least half of the
// outputs are 0, the others mostly 1 and 128; of the watched values at least seven of eight are 0. Two machines drawn apart rarely have
// alike pairs, so each size is drawn in three ways: both apart, and the new one made from the old one by renaming its states, as it is or
// with one entry changed. Where the new machine has more states than the old one, some old states get two names; where it has fewer, the
// next states that have no name are drawn.
ghost use Rattle.std.specs.Prelude.{◌<◌};

use crate::compare::compare;
use crate::tables::{ENTRIES, Machines, Table, place};
use crate::tally::Tally;
use machine::Sizes;

// How many pairs of machines are drawn: 500 for each of the 12 sizes and 3 ways.
const DRAWS: usize = 18000;

// The ways of drawing: apart, renamed, and renamed with one entry changed.
#[derive(Clone, Copy, PartialEq)]
enum Way {
    Apart,
    Renamed,
    Changed,
}

// A multiplicative generator of numbers that look like chance.
#[derive(Drop)]
struct Dice {
    seed: u64,
}

impl Dice {
    // The next number below `sides`, from the higher digits, or 0 where there is no side.
    fn roll(&mut self, sides: usize) -> usize {
        self.seed = self.seed % 2147483647 * 48271 % 2147483647;
        let digits = (self.seed / 65536) as usize;
        digits.checked_rem(sides).unwrap_or(0)
    }

    // The same as a byte.
    fn byte(&mut self, sides: usize) -> u8 {
        (self.roll(sides) % 256) as u8
    }

    fn flip(&mut self) -> bool {
        self.roll(2) == 0
    }
}

// Compares on all of them.
pub(crate) fn compare_all(tally: &mut Tally) {
    let mut dice = Dice { seed: 1 };
    for i in 0..DRAWS {
        let vectors = i / 6000 % 3 + 1;
        let sizes = Sizes {
            old: i / 3000 % 2 + 3,
            new: i / 1500 % 2 + 3,
            vectors,
            allowed: draw_allowed(vectors, &mut dice),
        };
        let way = match i / 500 % 3 {
            0 => Way::Apart,
            1 => Way::Renamed,
            _ => Way::Changed,
        };
        compare(&draw(sizes, way, &mut dice), tally);
    }
}

// Draws which vectors are allowed: all of them, or in about half of the draws any, but not none.
fn draw_allowed(vectors: usize, dice: &mut Dice) -> u64 {
    let every = match vectors {
        1 => 1,
        2 => 3,
        _ => 7,
    };
    if dice.flip() {
        return every as u64;
    }
    (dice.roll(every) % 7 + 1) as u64
}

// Draws two machines.
fn draw(sizes: Sizes, way: Way, dice: &mut Dice) -> Machines {
    let zeros = dice.roll(4) % 4 + 4;
    let old = draw_table(dice, sizes.old, zeros);
    let mut new = draw_table(dice, sizes.new, zeros);
    if way != Way::Apart {
        let shift = dice.roll(sizes.old);
        new = rename(sizes, shift, &old, dice);
    }
    if way == Way::Changed {
        change(sizes, &mut new, dice);
    }
    Machines { sizes, old, new }
}

// Draws a machine.
fn draw_table(dice: &mut Dice, states: usize, zeros: usize) -> Table {
    let mut table = Table {
        next: [0; ENTRIES],
        out: [0; ENTRIES],
        seen: [0; ENTRIES],
    };
    for i in 0..ENTRIES {
        table.next[i] = dice.byte(states);
        table.out[i] = output(dice, zeros);
        table.seen[i] = output(dice, 7);
    }
    table
}

// Draws an output: 0 in `zeros` of 8 draws, else 1 or 128.
fn output(dice: &mut Dice, zeros: usize) -> u8 {
    if dice.roll(8) < zeros {
        return 0;
    }
    if dice.flip() { 1 } else { 128 }
}

// Makes the new machine from the old one: the new state s stands for the old state s + shift, modulo the number of old states.
fn rename(sizes: Sizes, shift: usize, old: &Table, dice: &mut Dice) -> Table {
    let mut table = *old;
    for i in 0..ENTRIES {
        let from = entry_of(sizes, shift, i);
        table.next[i] = name(sizes, shift, old.next[from], dice);
        table.out[i] = old.out[from];
        table.seen[i] = old.seen[from];
    }
    table
}

// The entry of the old table for which entry i of the new one stands.
fn entry_of(sizes: Sizes, shift: usize, i: usize) -> usize
    ensures { result < 12 }
{
    let row = i.checked_div(sizes.vectors).unwrap_or(0);
    let column = i.checked_rem(sizes.vectors).unwrap_or(0);
    let state = row.wrapping_add(shift).checked_rem(sizes.old).unwrap_or(0);
    place(state, sizes.vectors, column) % ENTRIES
}

// One of the new states that stand for an old one, or any where there is none.
fn name(sizes: Sizes, shift: usize, old: u8, dice: &mut Dice) -> u8 {
    let states = sizes.old;
    let behind = usize::from(old).wrapping_add(states).wrapping_sub(shift);
    let first = behind.checked_rem(states).unwrap_or(0);
    let second = first.wrapping_add(states);
    if first >= sizes.new {
        return dice.byte(sizes.new);
    }
    let named = if second >= sizes.new || dice.flip() {
        first
    } else {
        second
    };
    (named % 256) as u8
}

// Draws one next state anew, or changes one output or one watched value.
fn change(sizes: Sizes, table: &mut Table, dice: &mut Dice) {
    let i = dice.roll(place(sizes.new, sizes.vectors, 0)) % ENTRIES;
    if dice.flip() {
        table.next[i] = dice.byte(sizes.new);
    } else if dice.flip() {
        table.seen[i] = table.seen[i].wrapping_add(1);
    } else {
        table.out[i] = table.out[i].wrapping_add(1);
    }
}
