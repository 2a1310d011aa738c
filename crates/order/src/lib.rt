// An order in which the kept cells can be evaluated one after another.
//
// Of the kept cells that are not placed yet, the lowest that reads only sources and placed cells is placed next. Where none can be
// placed, each of those left reads one of them, so some of them lie on a loop.
#![tactic(auto)]

ghost use Rattle.std.specs.Prelude.{◌≡◌, true, false, ◌+◌, ◌-◌, ◌<◌, get_or, Err};
ghost use Rattle.memory.specs.Meaning.Refusals.{Checked};
ghost use Rattle.memory.specs.Meaning.Slices.{Zero};
ghost use Rattle.netlist.specs.Meaning.Gates.{first_of, second_of};
ghost use Rattle.limits.specs.Meaning.Limits.{most_cells};
ghost use Rattle.netlist.specs.Meaning.Faults.{DesignFault};
ghost use Rattle.order.specs.Meaning.Order.{Plans};
ghost use Rattle.netlist.specs.Working.Sound.{Sound, ready_net, ready_gate};
ghost use Rattle.order.specs.Working.Placing.{NextReady};

use limits::Image;
use memory::Refusal;
use netlist::{Design, Gate};

// The lowest of 3, 5 and 9 that applies to a design, or none.
pub fn fault_of(d: Design) -> Result<(), Refusal>
    ensures { Checked (DesignFault d) result }
{
    levelize(d).answer
}

// The lowest of these that applies to a design, or none, and an order of its kept cells.
// Not a Result with the order inside: beside a refusal too `levelize` promises a count of 0 and a list of zeros (`Plans`).
#[derive(Clone, Copy)]
pub struct Plan {
    pub answer: Result<(), Refusal>,
    pub kept: usize,
    pub cells: [u16; Image::MOST_CELLS],
}

pub fn levelize(d: Design) -> Plan
    ensures { Plans d result.answer result.kept result.cells }
{
    if ranges::over_limit(d) {
        return no_plan(Refusal::SizeOver);
    }
    if ranges::net_over(d) {
        return no_plan(Refusal::NetOver);
    }
    place(d)
}

fn no_plan(reason: Refusal) -> Plan
    ensures { (result.answer ≡ Err reason) × (result.kept ≡ 0) × Zero result.cells }
{
    Plan {
        answer: Err(reason),
        kept: 0,
        cells: [0u16; Image::MOST_CELLS],
    }
}

// Places one kept cell after another until none is left, or none can be placed. Dead cells are marked from the start.
fn place(d: Design) -> Plan
    requires { Sound d }
    ensures { Plans d result.answer result.kept result.cells }
{
    let found = kept::find_kept(d);
    let kept = found.kept;
    let mut cells = [0u16; Image::MOST_CELLS];
    let mut marks = found.dead;
    for k in 0..kept {
        let Some(i) = next_ready(d, marks) else {
            return no_plan(Refusal::Loop);
        };
        cells[k] = i as u16;
        marks[i] = true;
    }
    Plan {
        answer: Ok(()),
        kept,
        cells,
    }
}

// The lowest unmarked cell that reads ready nets alone.
fn next_ready(d: Design, marks: [bool; Image::MOST_CELLS]) -> Option<usize>
    requires { Sound d }
    ensures { NextReady d (λ j. get_or marks j false) result }
{
    let base = d.cell_base();
    (0..usize::from(d.count)).find(|i| !marks[*i] && ready_gate(base, &marks, d.cells[*i].gate))
}

fn ready_gate(base: usize, marks: &[bool; Image::MOST_CELLS], g: Gate) -> bool
    requires { (first_of g < base + most_cells) × (second_of g < base + most_cells) }
    ensures { result ≡ ready_gate base (λ j. get_or marks.now j false) g }
{
    ready(base, marks, netlist::first_of(g)) && ready(base, marks, netlist::second_of(g))
}

// Whether a net is driven by no cell, or by a marked one.
fn ready(base: usize, marks: &[bool; Image::MOST_CELLS], net: u16) -> bool
    requires { net < base + most_cells }
    ensures { result ≡ ready_net base (λ j. get_or marks.now j false) net }
{
    let n = usize::from(net);
    n < base || marks[n - base]
}
