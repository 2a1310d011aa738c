// Drawings that the format allows, and their literals by place.
ghost use Rattle.drawing.specs.Working.Wiring.{Spelled};

use crate::Drawing;

// A drawing whose numbers are literals, its own ones even and above 0, and whose sizes are within the limits.
#[derive(Clone, Copy)]
pub struct SpelledDrawing {
    pub drawing: Drawing,
    pub ghost spelled: { Spelled drawing },
}

impl SpelledDrawing {
    ghost use Rattle.std.specs.Prelude.{◌≡◌, ◌+◌, ◌<◌};
    ghost use Rattle.drawing.specs.Meaning.Numbers.{number_at};
    ghost use Rattle.drawing.specs.Working.Places.{owns, own, reads, read_at};
    ghost use Rattle.drawing.specs.Working.Wiring.{literals};

    // How many literals are own ones.
    pub fn owns(&self) -> usize
        ensures { result ≡ owns self.now.drawing }
    {
        self.drawing.inputs + self.drawing.latches + self.drawing.ands
    }

    // How many literals are read.
    pub fn reads(&self) -> usize
        ensures { result ≡ reads self.now.drawing }
    {
        self.drawing.latches + self.drawing.outputs + self.drawing.ands + self.drawing.ands
    }

    // Own literal p: of the inputs, then of the flip-flops, then of the ANDs.
    pub fn own_literal(&self, p: usize) -> usize
        requires { p < owns self.now.drawing }
        ensures { (result ≡ own self.now.drawing p) × (result < literals) }
    {
        if p < self.drawing.inputs + self.drawing.latches {
            return self.number_at(p, 0);
        }
        self.number_at(self.drawing.outputs + p, 0)
    }

    // Read literal r: of the flip-flops, of the outputs, the first of the ANDs, the second of the ANDs.
    pub fn read_literal(&self, r: usize) -> usize
        requires { r < reads self.now.drawing }
        ensures { (result ≡ read_at self.now.drawing r) × (result < literals) }
    {
        let d = &self.drawing;
        let a = d.latches;
        if r < a {
            return self.number_at(d.inputs + r, 1);
        }
        let b = a + d.outputs;
        if r < b {
            return self.number_at(d.inputs + d.latches + (r - a), 0);
        }
        let c = b + d.ands;
        if r < c {
            return self.number_at(d.inputs + d.latches + d.outputs + (r - b), 1);
        }
        self.number_at(d.inputs + d.latches + d.outputs + (r - c), 2)
    }

    // Number k of line j.
    fn number_at(&self, j: usize, k: usize) -> usize
        requires { (j < self.now.drawing.inputs + self.now.drawing.latches + self.now.drawing.outputs + self.now.drawing.ands) × (k < 3) }
        ensures { (result ≡ number_at self.now.drawing j k) × (result < literals) }
    {
        usize::from(self.drawing.numbers[3 * j + k])
    }
}
