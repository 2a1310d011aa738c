// Drawing designs from a fixed sequence of numbers that look like chance, so that a run can be repeated.
ghost use Rattle.std.specs.Prelude.{◌≤◌};

use crate::plain;
use crate::plain::Plain;

// The sequence: xorshift on 32 bits, of which the upper half is used.
#[derive(Clone, Copy)]
pub struct Chance {
    pub state: u32,
}

impl Chance {
    // The next number of the sequence, below n, or 0 where n is 0.
    pub fn below(&mut self, n: usize) -> usize
        ensures { result ≤ n }
    {
        let x = self.state;
        let a = x ^ (x << 13);
        let b = a ^ (a >> 17);
        self.state = b ^ (b << 5);
        (x as usize / 65536).checked_rem(n).unwrap_or(0)
    }

    // Whether the next number below n is 0.
    pub fn one_in(&mut self, n: usize) -> bool {
        self.below(n) == 0
    }
}

// Draws the sizes: inputs below n, flip-flops below n + 1, outputs below 9, and cells below a number.
pub fn sizes(chance: &mut Chance, n: u8, cells: u8, list: &mut Plain) {
    list.put(plain::INPUTS, chance.below(usize::from(n)));
    list.put(plain::LATCHES, chance.below(usize::from(n) + 1));
    list.put(plain::OUTPUTS, chance.below(9));
    list.put(plain::COUNT, chance.below(usize::from(cells)));
}

// Draws cells and nets for the sizes of a list that is empty behind them, and numbers up to `litter` beyond the sizes, where they count for
// nothing. Without loops a cell reads a cell only if that has a lower number, some bits of both numbers being turned, so that cells read
// earlier and later ones. All enable and clear nets are left at 1 and 0 in a third of the designs, and half of them in another third.
pub fn fill(chance: &mut Chance, loops: bool, litter: usize, list: &mut Plain) {
    let nets = Nets {
        loops,
        turned: chance.below(512),
        simple: chance.below(3),
    };
    list.put(plain::VERSION, 2);
    for place in plain::CELLS..plain::NUMBERS {
        let number = match list.width(place) {
            0 => list.at(place).wrapping_add(chance.below(litter)),
            3 => chance.below(8),
            _ => nets.net(chance, list, place),
        };
        list.put(place, number);
    }
    list.put(plain::VERSION, list.lowest_version());
}

// How nets are drawn: whether there may be loops; else which bits of two cells' numbers are turned before the lower one is taken; and in how
// many of two cases an enable or clear net stays what it is.
#[derive(Clone, Copy)]
struct Nets {
    loops: bool,
    turned: usize,
    simple: usize,
}

impl Nets {
    // A net for a place of a list: any net, or for a cell one that makes no loop; 0 for the second net of a kind that reads one.
    fn net(&self, chance: &mut Chance, list: &Plain, place: usize) -> usize {
        let first = list.first_cell();
        let net = chance.below(list.nets());
        if plain::DATA <= place {
            let control = place < plain::SHOWN && place % 3 != plain::DATA % 3;
            let kept = control && chance.below(2) < self.simple;
            return if kept { list.at(place) } else { net };
        }
        if place % 3 == (plain::CELLS + 2) % 3 && list.at(place.wrapping_sub(2)) < 2 {
            return 0;
        }
        let cell = place.wrapping_sub(plain::CELLS) / 3;
        if self.loops || net < first || (net - first) ^ self.turned < cell ^ self.turned {
            return net;
        }
        chance.below(first)
    }
}

// A design with the number at a place spoiled in one of eight ways: a size over its limit, another kind, a net of a cell or one too high,
// and behind the cells nets 0 and 1 too. A second net that its kind does not read is 0 all the same.
pub fn spoiled(list: &Plain, place: usize, way: usize) -> Plain {
    let mut changed = *list;
    let lowest = match place {
        plain::INPUTS => 7,
        plain::LATCHES => 8,
        plain::OUTPUTS => 9,
        plain::COUNT => 257,
        _ => list.first_cell(),
    };
    let kind = list.width(place) == 3;
    let number = if kind || (plain::DATA <= place && way < 2) {
        way
    } else {
        lowest.wrapping_add(way)
    };
    changed.put(place, number);
    Plain::of(changed.design())
}

// A chain: each cell reads the next, and its value changes with that of the next. The last reads input 0, or the first cell where the
// chain is closed; two flip-flops and an output read the first, one as its enable net. Of the closed ones some half are dead: input 1 is
// read there instead.
pub fn chain(chance: &mut Chance, count: u16, closed: bool) -> Plain {
    let count = usize::from(count);
    let mut list = Plain::zero();
    for (place, number) in [
        (plain::VERSION, 2),
        (plain::INPUTS, 2),
        (plain::LATCHES, 2),
        (plain::OUTPUTS, 3),
        (plain::COUNT, count),
    ] {
        list.put(place, number);
    }
    for i in 0..count {
        let kind = chance.below(8);
        let drawn = chance.below(6);
        let other = match kind {
            2 | 5 => 1,
            4 | 7 => drawn,
            _ => 0,
        };
        let place = plain::CELLS + 3 * i;
        list.put(place, kind);
        list.put(place + 1, 7 + i);
        list.put(place + 2, other);
    }
    let last = plain::CELLS + 3 * count - 3;
    list.put(last + 1, if closed { 6 } else { 2 });
    let dead = chance.one_in(2);
    let end = if closed && dead { 3 } else { 6 };
    for (place, net) in [
        (plain::DATA, 3),
        (plain::ENABLE, end),
        (plain::CLEAR, 5),
        (plain::DATA + 3, end),
        (plain::ENABLE + 3, 1),
        (plain::SHOWN, end),
        (plain::SHOWN + 2, 5),
    ] {
        list.put(place, net);
    }
    list
}
