// Fields of an image, packed into one number each.
ghost use Rattle.std.specs.Prelude.{◌≤◌};
ghost use Rattle.limits.specs.Meaning.Limits.{most_cells};
ghost use Rattle.limits.specs.Working.Tails.{most_tails};

use limits::Image;

// The header, the cells and the nets behind them, and how many cells and nets there are.
#[derive(Clone, Copy)]
pub struct Words {
    pub header: u32,
    pub cells: [u32; Image::MOST_CELLS],
    pub tail: [u16; Image::MOST_TAILS],
    pub count: usize,
    pub tails: usize,
    ghost few_cells: { count ≤ most_cells },
    ghost few_tails: { tails ≤ most_tails },
}
