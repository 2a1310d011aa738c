// The design that a drawing draws: its ANDs and then its NOT cells, with the nets that they read.
#![tactic(auto)]

mod cells;

ghost use Rattle.std.specs.Prelude.{◌≡◌, ◌+◌, ◌≤◌};
ghost use Rattle.limits.specs.Meaning.Limits.{most_cells};
ghost use Rattle.drawing.specs.Meaning.Wires.{drawn};
ghost use Rattle.drawing.specs.Working.Wiring.{Spelled};
ghost use Rattle.elaborate.specs.Working.Drawn.{Draws, Drafts};

use drawing::{Drawing, SpelledDrawing, Wires};
use image::Reading;
use limits::Image;
use memory::Refusal;
use netlist::Design;

// The design of a drawing whose lines are spelled by the format, or the number by which it is turned away, with the empty design.
pub fn design_of(d: Drawing) -> Reading
    requires { Spelled d }
    ensures { Draws d result }
{
    match draft(SpelledDrawing { drawing: d }) {
        Ok(design) => Reading {
            answer: Ok(()),
            design,
        },
        Err(reason) => image::refusal(reason),
    }
}

// The design, or why there is none.
fn draft(d: SpelledDrawing) -> Result<Design, Refusal>
    ensures { Drafts d.drawing result }
{
    let w = drawing::wires_of(d).ok_or(Refusal::Undriven)?;
    let count = d.drawing.ands + w.count;
    if count > Image::MOST_CELLS {
        return Err(Refusal::SizeOver);
    }
    let design = assembled(&w);
    order::fault_of(design)?;
    Ok(design)
}

// The cells, and the nets that flip-flops and outputs read, put together.
fn assembled(w: &Wires) -> Design
    requires { w.now.of.drawing.ands + w.now.count ≤ most_cells }
    ensures { result ≡ drawn w.now.of.drawing }
{
    let d = &w.of.drawing;
    Design {
        inputs: d.inputs as u8,
        latches: d.latches as u8,
        outputs: d.outputs as u8,
        count: (d.ands + w.count) as u16,
        cells: cells::cells_of(w),
        data: cells::nets_read(w, 0, d.latches),
        enable: [1u16; Image::MOST_LATCHES],
        clear: [0u16; Image::MOST_LATCHES],
        shown: cells::nets_read(w, d.latches, d.outputs),
    }
}
