// The design that an image spells.
ghost use Rattle.std.specs.Prelude.{◌≡◌, ◌+◌, ◌*◌, ◌^◌, ◌<◌, ◌≤◌, length};
ghost use Rattle.memory.specs.Working.Filling.{Filled};
ghost use Rattle.limits.specs.Meaning.Limits.{most_outputs, most_cells};
ghost use Rattle.limits.specs.Meaning.Layout.{count_bits, kind_bits, nets_each};
ghost use Rattle.limits.specs.Working.Tails.{most_tails};
ghost use Rattle.netlist.specs.Meaning.Gates.{gate_of, blank_cell};
ghost use Rattle.format.specs.Meaning.Format.{count_in, gate_in, cell_in, tail_in, decoded};
ghost use Rattle.image.specs.Meaning.Reading.{empty_design};
ghost use Rattle.format.specs.Working.Scanning.{SpellsHeader, WithinLimits};
ghost use Rattle.image.specs.Working.Taking.{Takes};

use format::fields;
use format::header::Header;
use limits::Image;
use netlist::{Cell, Design, Gate};

pub(crate) fn decode(image: &[u8], h: Header) -> Design
    requires spelled { SpellsHeader image.now h }
    requires within { WithinLimits image.now }
    ensures { result ≡ decoded image.now }
{
    let count = usize::from(h.count);
    let latches = usize::from(h.latches);
    let outputs = usize::from(h.outputs);
    let cells = cells_of(image, count);
    let each = h.nets_each();
    let mut data = [0u16; Image::MOST_LATCHES];
    take_nets(image, count, 0, each, latches, &mut data);
    let controlled = h.three_net_latches();
    let mut enable = [1u16; Image::MOST_LATCHES];
    take_nets(image, count, 1, Image::LATCH_NETS, controlled, &mut enable);
    let mut clear = [0u16; Image::MOST_LATCHES];
    take_nets(image, count, 2, Image::LATCH_NETS, controlled, &mut clear);
    let mut shown = [0u16; Image::MOST_OUTPUTS];
    take_nets(image, count, each * latches, 1, outputs, &mut shown);
    Design {
        inputs: h.inputs as u8,
        latches: h.latches as u8,
        outputs: h.outputs as u8,
        count: h.count,
        cells,
        data,
        enable,
        clear,
        shown,
    }
}

pub(crate) fn empty() -> Design
    ensures { result ≡ empty_design }
{
    Design {
        inputs: 0,
        latches: 0,
        outputs: 0,
        count: 0,
        cells: [Cell { gate: Gate::Buf(0) }; Image::MOST_CELLS],
        data: [0u16; Image::MOST_LATCHES],
        enable: [1u16; Image::MOST_LATCHES],
        clear: [0u16; Image::MOST_LATCHES],
        shown: [0u16; Image::MOST_OUTPUTS],
    }
}

// The cells of an image, blank beyond them.
fn cells_of(image: &[u8], count: usize) -> [Cell; Image::MOST_CELLS]
    requires { count ≤ most_cells }
    ensures { Filled (cell_in image.now) blank_cell most_cells count result }
{
    let mut cells = [Cell { gate: Gate::Buf(0) }; Image::MOST_CELLS];
    for i in 0..count {
        cells[i] = Cell {
            gate: gate_at(image, i),
        };
    }
    cells
}

fn gate_at(image: &[u8], i: usize) -> Gate
    requires { i < most_cells }
    ensures { result ≡ gate_in image.now i }
{
    let cell = fields::cell(image, i);
    gate_of(cell.kind, cell.first, cell.second)
}

// By ranges, as document 01 has the kinds: 0 and 1 read one net, 2 to 7 two.
fn gate_of(kind: u16, a: u16, b: u16) -> Gate
    requires { kind < 2 ^ kind_bits }
    ensures { result ≡ gate_of kind a b }
{
    match kind {
        0..=1 => if kind == 0 {
            Gate::Buf(a)
        } else {
            Gate::Not(a)
        },
        2..=7 => two_nets(kind, a, b),
        _ => Gate::Buf(a),
    }
}

fn two_nets(kind: u16, a: u16, b: u16) -> Gate
    requires { (2 ≤ kind) × (kind < 2 ^ kind_bits) }
    ensures { result ≡ gate_of kind a b }
{
    match kind {
        2 => Gate::And(a, b),
        3 => Gate::Or(a, b),
        4 => Gate::Xor(a, b),
        5 => Gate::Nand(a, b),
        6 => Gate::Nor(a, b),
        _ => Gate::Xnor(a, b),
    }
}

// Puts n nets behind the cells, of which there are `count`, at the front of a list: net t, and then each that stands `step` further.
fn take_nets(image: &[u8], count: usize, t: usize, step: usize, n: usize, nets: &mut [u16])
    requires count { (count ≡ count_in image.now) × (count < 2 ^ count_bits) }
    requires t { t ≤ most_tails }
    requires step { step ≤ nets_each 2 }
    requires few { n ≤ most_outputs }
    requires room { n ≤ length nets.old }
    ensures { Takes (λ k. tail_in image.now (step * k + t)) n nets.old nets.new }
{
    for k in 0..n {
        nets[k] = fields::tail(image, count, step * k + t);
    }
}
