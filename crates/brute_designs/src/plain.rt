// A design as one list of numbers, in the order of an image of version 2: the version; four sizes; kind, first net and second net of each
// of 256 cells (second net 0 where the kind reads one); data, enable and clear net of each of 7 flip-flops; 8 nets of outputs. Two designs
// are the same, also beyond their sizes, when their lists are, but for the version, which a design in memory does not have. Limits and
// widths are written here again, from document 01 and the requests, so that a wrong one in the product shows.
ghost use Rattle.std.specs.Prelude.{◌≤◌};

use netlist::{Cell, Design, Gate};

// Places and no fields of a struct, since reading, spoiling and printing go over all of them in the order of an image.
//
// The version of the image that the numbers are taken from or written to.
pub const VERSION: usize = 0;

pub const INPUTS: usize = 1;

pub const LATCHES: usize = 2;

pub const OUTPUTS: usize = 3;

pub const COUNT: usize = 4;

// Where the cells begin.
pub const CELLS: usize = 5;

// The nets of the first flip-flop; those of the next stand three places on.
pub const DATA: usize = 773;

pub const ENABLE: usize = 774;

pub const CLEAR: usize = 775;

// Where the nets of outputs begin, and how many numbers there are.
pub const SHOWN: usize = 794;

pub const NUMBERS: usize = 802;

#[derive(Clone, Copy)]
pub struct Plain {
    numbers: [u16; NUMBERS],
}

impl Plain {
    pub fn zero() -> Plain {
        Plain {
            numbers: [0; NUMBERS],
        }
    }

    // The empty design: enable net 1, and 0 elsewhere. So the reader leaves what is beyond the sizes, too.
    pub fn empty() -> Plain {
        let mut list = Plain::zero();
        for k in 0..7 {
            list.put(ENABLE + 3 * k, 1);
        }
        list
    }

    // The number at a place, 0 past the end.
    pub fn at(&self, place: usize) -> usize
        ensures { result ≤ 65535 }
    {
        match self.numbers.get(place) {
            Some(number) => usize::from(*number),
            None => 0,
        }
    }

    // Sets the number at a place, if there is such a place.
    pub fn put(&mut self, place: usize, number: usize) {
        if let Some(old) = self.numbers.get_mut(place) {
            *old = (number % 65536) as u16;
        }
    }

    pub fn inputs(&self) -> usize
        ensures { result ≤ 65535 }
    {
        self.at(INPUTS)
    }

    pub fn latches(&self) -> usize
        ensures { result ≤ 65535 }
    {
        self.at(LATCHES)
    }

    pub fn outputs(&self) -> usize
        ensures { result ≤ 65535 }
    {
        self.at(OUTPUTS)
    }

    pub fn count(&self) -> usize
        ensures { result ≤ 65535 }
    {
        self.at(COUNT)
    }

    pub fn version(&self) -> usize {
        self.at(VERSION)
    }

    // The first net that a cell drives.
    pub fn first_cell(&self) -> usize
        ensures { result ≤ 131072 }
    {
        2 + self.inputs() + self.latches()
    }

    // How many nets there are.
    pub fn nets(&self) -> usize
        ensures { result ≤ 196607 }
    {
        self.first_cell() + self.count()
    }

    // The lowest version that can hold a design: 1 where each flip-flop has enable net 1 and clear net 0.
    pub fn lowest_version(&self) -> usize {
        for k in 0..7 {
            let plain = self.at(ENABLE + 3 * k) == 1 && self.at(CLEAR + 3 * k) == 0;
            if k < self.latches() && !plain {
                return 2;
            }
        }
        1
    }

    // How many bits the number at a place takes in an image of its version: 0 where it has no field.
    pub fn width(&self, place: usize) -> usize
        ensures { result ≤ 9 }
    {
        if place < COUNT {
            return 4;
        }
        if place == COUNT {
            return 9;
        }
        let used = if place < DATA {
            place < CELLS + 3 * self.count()
        } else if place < SHOWN {
            place < DATA + 3 * self.latches() && (place % 3 == DATA % 3 || self.version() == 2)
        } else {
            place < SHOWN + self.outputs()
        };
        if !used {
            return 0;
        }
        if place < DATA && place % 3 == CELLS % 3 {
            return 3;
        }
        9
    }

    // The first place behind the version at which two lists differ.
    pub fn first_difference(&self, other: &Plain) -> Option<usize> {
        (INPUTS..NUMBERS).find(|place| self.at(*place) != other.at(*place))
    }

    // The list of a design in memory, with the version that its image has.
    pub fn of(d: Design) -> Plain {
        let mut numbers = [0; NUMBERS];
        numbers[INPUTS] = u16::from(d.inputs);
        numbers[LATCHES] = u16::from(d.latches);
        numbers[OUTPUTS] = u16::from(d.outputs);
        numbers[COUNT] = d.count;
        let cells = d.cells;
        for (cell, fields) in cells
            .iter()
            .zip(numbers[CELLS..DATA].as_chunks_mut::<3>().0)
        {
            *fields = fields_of(cell.gate);
        }
        for i in 0..7 {
            numbers[DATA + 3 * i] = d.data[i];
            numbers[ENABLE + 3 * i] = d.enable[i];
            numbers[CLEAR + 3 * i] = d.clear[i];
        }
        let shown = d.shown;
        numbers[SHOWN..].copy_from_slice(&shown);
        let mut list = Plain { numbers };
        list.put(VERSION, list.lowest_version());
        list
    }

    // The design in memory of a list.
    pub fn design(&self) -> Design {
        let numbers = self.numbers;
        let mut cells = [Cell { gate: Gate::Buf(0) }; 256];
        for (cell, fields) in cells
            .iter_mut()
            .zip(numbers[CELLS..DATA].as_chunks::<3>().0)
        {
            let [kind, a, b] = *fields;
            cell.gate = gate_of(kind, a, b);
        }
        let mut d = Design {
            inputs: (numbers[INPUTS] % 256) as u8,
            latches: (numbers[LATCHES] % 256) as u8,
            outputs: (numbers[OUTPUTS] % 256) as u8,
            count: numbers[COUNT],
            cells,
            data: [0; 7],
            enable: [0; 7],
            clear: [0; 7],
            shown: [0; 8],
        };
        for i in 0..7 {
            d.data[i] = numbers[DATA + 3 * i];
            d.enable[i] = numbers[ENABLE + 3 * i];
            d.clear[i] = numbers[CLEAR + 3 * i];
        }
        d.shown.copy_from_slice(&numbers[SHOWN..]);
        d
    }
}

// The kind of a gate and the nets that it reads, the second 0 where it reads one.
fn fields_of(g: Gate) -> [u16; 3] {
    match g {
        Gate::Buf(a) => [0, a, 0],
        Gate::Not(a) => [1, a, 0],
        Gate::And(a, b) => [2, a, b],
        Gate::Or(a, b) => [3, a, b],
        Gate::Xor(a, b) => [4, a, b],
        Gate::Nand(a, b) => [5, a, b],
        Gate::Nor(a, b) => [6, a, b],
        Gate::Xnor(a, b) => [7, a, b],
    }
}

// The gate of a kind that reads these nets, or the first of them.
fn gate_of(kind: u16, a: u16, b: u16) -> Gate {
    match kind % 8 {
        0 => Gate::Buf(a),
        1 => Gate::Not(a),
        2 => Gate::And(a, b),
        3 => Gate::Or(a, b),
        4 => Gate::Xor(a, b),
        5 => Gate::Nand(a, b),
        6 => Gate::Nor(a, b),
        _ => Gate::Xnor(a, b),
    }
}
