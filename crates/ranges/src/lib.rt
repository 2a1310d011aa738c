// The sizes and the net numbers of a design in memory: 3 and 5.
#![tactic(auto)]

ghost use Rattle.std.specs.Prelude.{ℕ, ◌<◌, ◌≤◌, ◌⊎◌, get_or};
ghost use Rattle.memory.specs.Working.Tests.{Tells, Splits};
ghost use Rattle.netlist.specs.Meaning.Faults.{DesignFault};
ghost use Rattle.netlist.specs.Meaning.Gates.{first_of, second_of};
ghost use Rattle.netlist.specs.Meaning.Cells.{gate_at};
ghost use Rattle.netlist.specs.Working.Sound.{Within};

use limits::DesignSizes;
use netlist::Design;

// 3: whether a size of a design is over its limit.
pub fn over_limit(d: Design) -> bool
    ensures { Tells result (DesignFault d 3) }
{
    let sizes = DesignSizes {
        inputs: usize::from(d.inputs),
        latches: usize::from(d.latches),
        outputs: usize::from(d.outputs),
        cells: usize::from(d.count),
    };
    sizes.over_limit()
}

// 5: whether one of the nets of a design is out of range.
pub fn net_over(d: Design) -> bool
    requires { Within d }
    ensures { Tells result (DesignFault d 5) }
{
    let nets = d.nets();
    let latches = usize::from(d.latches);
    // Not one chain of `||`: that leaves two goals over four joins of branches, which the check does not find.
    if cell_net_over(d, nets) {
        return true;
    }
    if listed_net_over(&d.data, latches, nets) {
        return true;
    }
    if listed_net_over(&d.enable, latches, nets) {
        return true;
    }
    if listed_net_over(&d.clear, latches, nets) {
        return true;
    }
    listed_net_over(&d.shown, usize::from(d.outputs), nets)
}

// Whether a cell reads a number that is no net.
fn cell_net_over(d: Design, nets: usize) -> bool
    requires { Within d }
    ensures { Splits result ((i : ℕ) × (i < d.count) × ((nets ≤ first_of (gate_at d i)) ⊎ (nets ≤ second_of (gate_at d i))))
        ((i : ℕ) → i < d.count → (first_of (gate_at d i) < nets) × (second_of (gate_at d i) < nets)) }
{
    for i in 0..usize::from(d.count) {
        let gate = d.cells[i].gate;
        if usize::from(netlist::first_of(gate)) >= nets
            || usize::from(netlist::second_of(gate)) >= nets
        {
            return true;
        }
    }
    false
}

// Whether one of the first n numbers of a list is no net.
pub fn listed_net_over(list: &[u16], n: usize, nets: usize) -> bool
    requires { 0 < nets }
    ensures { Splits result ((k : ℕ) × (k < n) × (nets ≤ get_or list.now k 0)) ((k : ℕ) → k < n → get_or list.now k 0 < nets) }
{
    (0..n).any(|k| netlist::net_at(list, k) >= nets)
}
