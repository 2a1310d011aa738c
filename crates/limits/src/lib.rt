// How a netlist image is laid out: its limits, and how wide its fields are.
#![tactic(auto)]

ghost use Rattle.std.specs.Prelude.{◌↔◌, IsTrue};
ghost use Rattle.limits.specs.Meaning.Bounds.{AreLimits};
ghost use Rattle.limits.specs.Meaning.Over.{Over};

// The image format: the limits of its sizes, the widths of its fields and the bytes of the largest image, named once.
#[derive(Clone, Copy)]
pub struct Image {}

impl Image {
    pub const MOST_INPUTS: usize = 6;

    pub const MOST_LATCHES: usize = 7;

    pub const MOST_OUTPUTS: usize = 8;

    pub const MOST_CELLS: usize = 256;

    pub const MOST_NETS: usize = 2 + Image::MOST_INPUTS + Image::MOST_LATCHES + Image::MOST_CELLS;

    // The header: version, inputs, flip-flops and outputs of one width, then the number of cells.
    pub const SIZE_BITS: usize = 4;

    pub const COUNT_BITS: usize = 9;

    pub const HEADER_BITS: usize = 4 * Image::SIZE_BITS + Image::COUNT_BITS;

    pub const KIND_BITS: usize = 3;

    pub const NET_BITS: usize = 9;

    pub const CELL_BITS: usize = Image::KIND_BITS + Image::NET_BITS + Image::NET_BITS;

    // Nets of a flip-flop in version 2: data, enable and clear. Version 1 has the data alone.
    pub const LATCH_NETS: usize = 3;

    pub const MOST_TAILS: usize = Image::LATCH_NETS * Image::MOST_LATCHES + Image::MOST_OUTPUTS;

    pub const MOST_BYTES: usize = (Image::HEADER_BITS
        + Image::CELL_BITS * Image::MOST_CELLS
        + Image::NET_BITS * Image::MOST_TAILS
        + 7)
        / 8;

    // The limits as numbers, so that what is believed of the format and the constants are held to each other.
    pub fn limits() -> Limits
        ensures { AreLimits result }
    {
        Limits {
            inputs: Image::MOST_INPUTS,
            latches: Image::MOST_LATCHES,
            outputs: Image::MOST_OUTPUTS,
            cells: Image::MOST_CELLS,
            bytes: Image::MOST_BYTES,
        }
    }
}

#[derive(Clone, Copy)]
pub struct Limits {
    pub inputs: usize,
    pub latches: usize,
    pub outputs: usize,
    pub cells: usize,
    pub bytes: usize,
}

// The sizes of a design, wherever they stand.
#[derive(Clone, Copy)]
pub struct DesignSizes {
    pub inputs: usize,
    pub latches: usize,
    pub outputs: usize,
    pub cells: usize,
}

impl DesignSizes {
    // Whether one of them is over its limit.
    pub fn over_limit(self) -> bool
        ensures { IsTrue result ↔ Over self }
    {
        self.inputs > Image::MOST_INPUTS
            || self.latches > Image::MOST_LATCHES
            || self.outputs > Image::MOST_OUTPUTS
            || self.cells > Image::MOST_CELLS
    }
}
