// The recursive evaluator: the value of a net is found from the kind of the cell that drives it and the values of the nets that this cell
// reads, down to the constants, the inputs and the flip-flops. No order of evaluation is worked out and nothing is remembered. Each call
// of the recursion has one turn less than its caller; from a net that a flip-flop reads or an output shows, a design of G cells without
// a loop of kept cells never needs more than G turns.
ghost use Rattle.std.specs.Prelude.{◌≤◌};

use crate::plain;
use crate::plain::Plain;

// The lowest of 3, 5 and 9 that applies to a design, if one does. Numbers and not `Refusal`, so that a wrong number of a refusal shows.
pub fn number(list: &Plain) -> Option<u8> {
    if size_over(list) {
        return Some(3);
    }
    if net_over(list) {
        return Some(5);
    }
    loops(list).then_some(9)
}

// Whether a size is over its limit.
pub fn size_over(list: &Plain) -> bool {
    6 < list.inputs() || 7 < list.latches() || 8 < list.outputs() || 256 < list.count()
}

// Whether a net in use is one that the design does not have, also one that its cell does not read.
pub fn net_over(list: &Plain) -> bool {
    let nets = list.nets();
    (plain::CELLS..plain::NUMBERS).any(|place| list.width(place) == 9 && nets <= list.at(place))
}

// Whether a loop holds a kept cell: then, and only then, the recursion from a net that a flip-flop reads or an output shows can go through
// more cells than there are.
pub fn loops(list: &Plain) -> bool {
    let count = list.count();
    (plain::DATA..plain::NUMBERS).any(|place| list.width(place) == 9
        && deeper(list, list.at(place), count))
}

// Whether the recursion from a net can go through more than so many cells.
fn deeper(list: &Plain, net: usize, turns: usize) -> bool
    requires { net ≤ 200000 }
{
    let first = list.first_cell();
    if net < first {
        return false;
    }
    if turns == 0 {
        return true;
    }
    let place = plain::CELLS + 3 * (net - first);
    deeper(list, list.at(place + 1), turns - 1) || deeper(list, list.at(place + 2), turns - 1)
}

// Whether the net of a cell is kept, in a design without a loop of kept cells: the recursion from a net that a flip-flop reads or an output
// shows comes by it.
pub fn kept(list: &Plain, net: usize) -> bool {
    let count = list.count();
    (plain::DATA..plain::NUMBERS).any(|place| list.width(place) == 9
        && passes(list, list.at(place), net, count))
}

// Whether the recursion from a net comes by another.
fn passes(list: &Plain, net: usize, sought: usize, turns: usize) -> bool
    requires { net ≤ 200000 }
{
    if net == sought {
        return true;
    }
    let first = list.first_cell();
    if net < first || turns == 0 {
        return false;
    }
    let place = plain::CELLS + 3 * (net - first);
    passes(list, list.at(place + 1), sought, turns - 1)
        || passes(list, list.at(place + 2), sought, turns - 1)
}

// What n nets of a list spell at an entry of the tables, the first most significant. They stand so many places apart.
pub fn word(list: &Plain, entry: usize, from: usize, apart: usize, n: usize) -> usize {
    let mut number = 0;
    for k in 0..n {
        let net = list.at(apart.wrapping_mul(k).wrapping_add(from));
        number = (number << 1) | usize::from(value(list, entry, net, list.count()));
    }
    number
}

// Whether a net is 1.
fn value(list: &Plain, entry: usize, net: usize, turns: usize) -> bool
    requires { net ≤ 200000 }
{
    let first = list.first_cell();
    if net < first {
        return source(list, entry, net);
    }
    if turns == 0 {
        return false;
    }
    let place = plain::CELLS + 3 * (net - first);
    let a = value(list, entry, list.at(place + 1), turns - 1);
    let b = value(list, entry, list.at(place + 2), turns - 1);
    shows(list.at(place), a, b)
}

// Whether a constant, an input or a flip-flop is 1. The number of an entry spells the state and then the vector.
fn source(list: &Plain, entry: usize, net: usize) -> bool {
    if net < 2 {
        return net == 1;
    }
    let inputs = list.inputs();
    let last = if net < 2 + inputs {
        1 + inputs
    } else {
        1 + inputs + list.latches() + inputs
    };
    (entry >> (last.wrapping_sub(net) % 16)) % 2 == 1
}

// Whether a cell of a kind shows 1 when its nets have these values, told from how many of them are 1.
fn shows(kind: usize, a: bool, b: bool) -> bool {
    let ones = u8::from(a) + u8::from(b);
    match kind {
        0 => ones == 1,
        1 => ones == 0,
        2 => ones == 2,
        3 => ones != 0,
        4 => ones == 1,
        5 => ones != 2,
        6 => ones == 0,
        _ => ones != 1,
    }
}
