// The cells of a drawing, and the nets that flip-flops and outputs read.
ghost use Rattle.std.specs.Prelude.{◌≡◌, ◌+◌, ◌<◌, ◌≤◌};
ghost use Rattle.memory.specs.Working.Filling.{Filled};
ghost use Rattle.limits.specs.Meaning.Limits.{most_cells};
ghost use Rattle.netlist.specs.Meaning.Gates.{blank_cell};
ghost use Rattle.drawing.specs.Working.Places.{reads, read_at};
ghost use Rattle.drawing.specs.Meaning.Wires.{net_of, cell_of};

use drawing::Wires;
use limits::Image;
use netlist::{Cell, Gate};

// All cells, blank beyond them.
pub(crate) fn cells_of(w: &Wires) -> [Cell; Image::MOST_CELLS]
    requires { w.now.of.drawing.ands + w.now.count ≤ most_cells }
    ensures { Filled (cell_of w.now.of.drawing) blank_cell most_cells (w.now.of.drawing.ands + w.now.count) result }
{
    let mut cells = [Cell { gate: Gate::Buf(0) }; Image::MOST_CELLS];
    for i in 0..w.of.drawing.ands + w.count {
        cells[i] = Cell {
            gate: gate_at(w, i),
        };
    }
    cells
}

// The gate of cell i: an AND, or the NOT of a variable that is read negated.
fn gate_at(w: &Wires, i: usize) -> Gate
    requires { i < w.now.of.drawing.ands + w.now.count }
    ensures { result ≡ (cell_of w.now.of.drawing i).gate }
{
    let d = &w.of.drawing;
    if i < d.ands {
        let r = d.latches + d.outputs + i;
        return Gate::And(net_read(w, r), net_read(w, r + d.ands));
    }
    Gate::Not(w.nets[2 * usize::from(w.nots[i - d.ands])])
}

// The net of read literal r.
fn net_read(w: &Wires, r: usize) -> u16
    requires { r < reads w.now.of.drawing }
    ensures { result ≡ net_of w.now.of.drawing (read_at w.now.of.drawing r) }
{
    w.nets[w.of.read_literal(r)]
}

// The nets of so many read literals from one on, and 0 beyond.
pub(crate) fn nets_read<const N: usize>(w: &Wires, from: usize, count: usize) -> [u16; N]
    requires { (from + count ≤ reads w.now.of.drawing) × (count ≤ N) }
    ensures { Filled (λ k. net_of w.now.of.drawing (read_at w.now.of.drawing (from + k))) 0 N count result }
{
    let mut nets = [0u16; N];
    for k in 0..count {
        nets[k] = net_read(w, from + k);
    }
    nets
}
