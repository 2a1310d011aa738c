// Designs: an image in hexadecimal, or a list of all that stands in memory.
use crate::words;
use limits::Image;
use netlist::{Cell, Design, Gate};

// Where nets and cells stand in such a list, behind its 4 sizes; and how many numbers it has.
const DATA_AT: usize = 4;

const ENABLE_AT: usize = DATA_AT + Image::MOST_LATCHES;

const CLEAR_AT: usize = ENABLE_AT + Image::MOST_LATCHES;

const SHOWN_AT: usize = CLEAR_AT + Image::MOST_LATCHES;

const CELLS_AT: usize = SHOWN_AT + Image::MOST_OUTPUTS;

const NUMBERS: usize = CELLS_AT + 3 * Image::MOST_CELLS;

// A design, and what of the line stands behind it.
#[derive(Clone, Copy)]
pub(crate) struct Drawn<'a> {
    pub design: Design,
    pub rest: &'a [u8],
}

// Reads a design, if one is wanted and it is spelled right; else it is the empty one.
pub(crate) fn drawn_at(line: &[u8], wanted: bool) -> Option<Drawn<'_>> {
    if !wanted {
        let none = image::refusal(0u8);
        return Some(Drawn {
            design: none.design,
            rest: line,
        });
    }
    let mut list = [0u16; NUMBERS];
    let word = words::numbers(line, &mut list)?;
    if word.len > 0 {
        return Some(Drawn {
            design: in_memory(&list),
            rest: word.rest,
        });
    }
    drawn_by_image(line)
}

// Reads a design that is given as an image.
fn drawn_by_image(line: &[u8]) -> Option<Drawn<'_>> {
    let mut bytes = [0u8; Image::MOST_BYTES];
    let word = words::bytes(line, &mut bytes)?;
    let reading = image::read(&bytes[..word.len]);
    let answer = reading.answer;
    answer.ok()?;
    Some(Drawn {
        design: reading.design,
        rest: word.rest,
    })
}

// The design of a list: sizes, data, enable and clear nets of the flip-flops, nets shown as outputs, cells.
fn in_memory(list: &[u16; NUMBERS]) -> Design {
    let mut data = [0u16; Image::MOST_LATCHES];
    data.copy_from_slice(&list[DATA_AT..ENABLE_AT]);
    let mut enable = [0u16; Image::MOST_LATCHES];
    enable.copy_from_slice(&list[ENABLE_AT..CLEAR_AT]);
    let mut clear = [0u16; Image::MOST_LATCHES];
    clear.copy_from_slice(&list[CLEAR_AT..SHOWN_AT]);
    let mut shown = [0u16; Image::MOST_OUTPUTS];
    shown.copy_from_slice(&list[SHOWN_AT..CELLS_AT]);
    Design {
        inputs: low(list[0]),
        latches: low(list[1]),
        outputs: low(list[2]),
        count: list[3],
        cells: cells_of(&list[CELLS_AT..]),
        data,
        enable,
        clear,
        shown,
    }
}

// A number that a byte holds, or else the most that it does.
pub(crate) fn low(n: u16) -> u8 {
    u8::try_from(n).unwrap_or(u8::MAX)
}

// Cells of three numbers each: kind, first net, second net.
fn cells_of(list: &[u16]) -> [Cell; Image::MOST_CELLS] {
    let mut cells = [Cell { gate: Gate::Buf(0) }; Image::MOST_CELLS];
    for (cell, numbers) in cells.iter_mut().zip(list.as_chunks::<3>().0) {
        let [kind, a, b] = *numbers;
        cell.gate = gate_of(kind, a, b);
    }
    cells
}

// The gate of a kind; 7 and more is XNOR.
fn gate_of(kind: u16, a: u16, b: u16) -> Gate {
    match kind {
        0 => Gate::Buf(a),
        1 => Gate::Not(a),
        2 => Gate::And(a, b),
        3 => Gate::Or(a, b),
        4 => Gate::Xor(a, b),
        5 => Gate::Nand(a, b),
        6 => Gate::Nor(a, b),
        _ => Gate::Xnor(a, b),
    }
}
