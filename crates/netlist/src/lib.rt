// Netlists: gates, cells and designs.
#![tactic(auto)]

ghost use Rattle.std.specs.Prelude.{◌≡◌, get_or};
ghost use Rattle.netlist.specs.Meaning.Gates.{kind_of, first_of, second_of};
ghost use Rattle.netlist.specs.Meaning.Cells.{cell_base, nets_of};

use limits::Image;

// A gate with exactly the nets that its kind reads.
#[derive(Clone, Copy)]
pub enum Gate {
    Buf(u16),
    Not(u16),
    And(u16, u16),
    Or(u16, u16),
    Xor(u16, u16),
    Nand(u16, u16),
    Nor(u16, u16),
    Xnor(u16, u16),
}

#[derive(Clone, Copy)]
pub struct Cell {
    pub gate: Gate,
}

// Nets 0 and 1 are the constants; then come the inputs, the flip-flops and the cells in order. At the clock a flip-flop becomes 0
// where the value of its clear net is 1, else takes that of its data net where that of its enable net is 1, else holds its bit. An
// output shows the value of its net.
// Lists by flip-flop, not a list of flip-flops: `Taken`, `DesignFault`, `SameDesign`, `Encodes` and the laws on them speak of `d.data`,
// `d.enable` and `d.clear`.
#[derive(Clone, Copy)]
pub struct Design {
    pub inputs: u8,
    pub latches: u8,
    pub outputs: u8,
    pub count: u16,
    pub cells: [Cell; Image::MOST_CELLS],
    pub data: [u16; Image::MOST_LATCHES],
    pub enable: [u16; Image::MOST_LATCHES],
    pub clear: [u16; Image::MOST_LATCHES],
    pub shown: [u16; Image::MOST_OUTPUTS],
}

impl Design {
    // The first net of a cell.
    pub fn cell_base(&self) -> usize
        ensures { result ≡ cell_base self.now }
    {
        2 + usize::from(self.inputs) + usize::from(self.latches)
    }

    // How many nets there are.
    pub fn nets(&self) -> usize
        ensures { result ≡ nets_of self.now }
    {
        self.cell_base() + usize::from(self.count)
    }
}

// The net number at a place of a list, 0 past its end.
pub fn net_at(nets: &[u16], k: usize) -> usize
    ensures { result ≡ get_or nets.now k 0 }
{
    usize::from(nets.get(k).copied().unwrap_or(0))
}

pub fn kind_of(g: Gate) -> u16
    ensures { result ≡ kind_of g }
{
    match g {
        Gate::Buf(_) => 0,
        Gate::Not(_) => 1,
        Gate::And(_, _) => 2,
        Gate::Or(_, _) => 3,
        Gate::Xor(_, _) => 4,
        Gate::Nand(_, _) => 5,
        Gate::Nor(_, _) => 6,
        Gate::Xnor(_, _) => 7,
    }
}

pub fn first_of(g: Gate) -> u16
    ensures { result ≡ first_of g }
{
    match g {
        Gate::Buf(a)
        | Gate::Not(a)
        | Gate::And(a, _)
        | Gate::Or(a, _)
        | Gate::Xor(a, _)
        | Gate::Nand(a, _)
        | Gate::Nor(a, _)
        | Gate::Xnor(a, _) => a,
    }
}

// The second net, 0 of a gate that reads one.
pub fn second_of(g: Gate) -> u16
    ensures { result ≡ second_of g }
{
    match g {
        Gate::Buf(_) | Gate::Not(_) => 0,
        Gate::And(_, b)
        | Gate::Or(_, b)
        | Gate::Xor(_, b)
        | Gate::Nand(_, b)
        | Gate::Nor(_, b)
        | Gate::Xnor(_, b) => b,
    }
}
