// The kept cells of a design: those from which a path through cells leads to a flip-flop or an output.
//
// They are found backwards: a cell that drives a net that a flip-flop reads or an output shows is kept, and so is one that drives a net
// that a kept cell reads.
#![tactic(auto)]

ghost use Rattle.std.specs.Prelude.{◌≡◌, ◌<◌};
ghost use Rattle.netlist.specs.Working.Sound.{Sound};
ghost use Rattle.kept.specs.Working.{ends_of, end_net, row_net, InRow, TellsKept};

use limits::Image;
use netlist::Design;

// Which cells are dead, and how many are kept.
#[derive(Clone, Copy)]
pub struct Found {
    pub dead: [bool; Image::MOST_CELLS],
    pub kept: usize,
}

// Goes along a row of nets; a cell that drives one of them is kept, and the nets that it reads are added to the row. The row grows on the
// way, so no range or iterator says how long it is: the `while` stays.
pub fn find_kept(d: Design) -> Found
    requires { Sound d }
    ensures { TellsKept d result.dead result.kept }
{
    let base = d.cell_base();
    let ends = ends_of(d);
    let mut list = [0u16; Image::MOST_CELLS];
    let mut dead = [true; Image::MOST_CELLS];
    let mut kept = 0;
    let mut q = 0;
    while q < ends + 2 * kept {
        let net = usize::from(row_net(d, list, q));
        if base <= net {
            let i = net - base;
            if dead[i] {
                list[kept] = i as u16;
                dead[i] = false;
                kept += 1;
            }
        }
        q += 1;
    }
    Found { dead, kept }
}

// The nets that flip-flops read and outputs show, then both nets of each cell of a list.
fn row_net(d: Design, list: [u16; Image::MOST_CELLS], q: usize) -> u16
    requires { InRow d list q }
    ensures { result ≡ row_net d list q }
{
    let ends = ends_of(d);
    if q < ends {
        return end_net(d, q);
    }
    let p = q - ends;
    let i = usize::from(list[p / 2]);
    let gate = d.cells[i].gate;
    if p % 2 == 0 {
        return netlist::first_of(gate);
    }
    netlist::second_of(gate)
}

// How many nets flip-flops read and outputs show.
fn ends_of(d: Design) -> usize
    ensures { result ≡ ends_of d }
{
    3 * usize::from(d.latches) + usize::from(d.outputs)
}

// The data, enable and clear nets of the flip-flops, then the nets that outputs show.
fn end_net(d: Design, q: usize) -> u16
    requires sound { Sound d }
    requires within { q < ends_of d }
    ensures { result ≡ end_net d q }
{
    let n = usize::from(d.latches);
    if q < n {
        return d.data[q];
    }
    if q < 2 * n {
        return d.enable[q - n];
    }
    if q < 3 * n {
        return d.clear[q - 2 * n];
    }
    d.shown[q - 3 * n]
}
