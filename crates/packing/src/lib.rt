// Fields of a design that stand together in the image, packed into one number each, so that a bit of the image is a bit of one number.
#![tactic(auto)]

pub mod words;

ghost use Rattle.std.specs.Prelude.{◌≡◌, ◌+◌, ◌*◌, ◌^◌, ◌<◌, ◌≤◌};
ghost use Rattle.memory.specs.Working.Filling.{Filled};
ghost use Rattle.netlist.specs.Meaning.Gates.{first_of, second_of};
ghost use Rattle.limits.specs.Meaning.Limits.{most_cells};
ghost use Rattle.limits.specs.Meaning.Layout.{net_bits, nets_each};
ghost use Rattle.limits.specs.Working.Tails.{most_tails};
ghost use Rattle.netlist.specs.Meaning.Nets.{gate_at};
ghost use Rattle.netlist.specs.Working.Sound.{Sound};
ghost use Rattle.packing.specs.Working.{joined, Heads, header_word, cell_word, latch_net, tail_net, Packs};

use format::Header;
use limits::Image;
use netlist::{Design, Gate};
pub use words::Words;

// The header, the cells and the nets behind them of a design, packed.
pub fn words_of(d: Design, h: Header) -> Words
    requires sound { Sound d }
    requires heads { Heads d h }
    ensures { Packs d result }
{
    Words {
        header: header_word(h),
        cells: cell_words(d),
        tail: tail_nets(d, h.nets_each()),
        count: usize::from(d.count),
        tails: h.tails(),
    }
}

// The header as one number.
fn header_word(h: Header) -> u32
    requires { h.version ≤ 2 }
    ensures { result ≡ header_word h.version h.inputs h.latches h.outputs h.count }
{
    let inputs = join(u32::from(h.version), h.inputs, Image::SIZE_BITS);
    let latches = join(inputs, h.latches, Image::SIZE_BITS);
    let outputs = join(latches, h.outputs, Image::SIZE_BITS);
    join(outputs, h.count, Image::COUNT_BITS)
}

// The cells of a design as numbers, 0 beyond them.
fn cell_words(d: Design) -> [u32; Image::MOST_CELLS]
    requires { Sound d }
    ensures { Filled (λ i. cell_word (gate_at d i)) 0 most_cells d.count result }
{
    let mut words = [0u32; Image::MOST_CELLS];
    for i in 0..usize::from(d.count) {
        words[i] = cell_word(d.cells[i].gate);
    }
    words
}

// A cell as one number.
fn cell_word(g: Gate) -> u32
    requires first { first_of g < 2 ^ net_bits }
    requires second { second_of g < 2 ^ net_bits }
    ensures { result ≡ cell_word g }
{
    let first = join(
        u32::from(netlist::kind_of(g)),
        netlist::first_of(g),
        Image::NET_BITS,
    );
    join(first, netlist::second_of(g), Image::NET_BITS)
}

// The nets of the flip-flops, `each` of them a flip-flop, and behind them those of the outputs, 0 beyond them.
fn tail_nets(d: Design, each: usize) -> [u16; Image::MOST_TAILS]
    requires sound { Sound d }
    requires some { 0 < each }
    requires few { each ≤ nets_each 2 }
    ensures { Filled (tail_net each d) 0 most_tails (each * d.latches + d.outputs) result }
{
    let behind = each * usize::from(d.latches);
    let tails = behind + usize::from(d.outputs);
    let mut nets = [0u16; Image::MOST_TAILS];
    for t in 0..tails {
        nets[t] = if t < behind {
            let k = t / each;
            latch_net(d.data[k], d.enable[k], d.clear[k], t % each)
        } else {
            d.shown[t - behind]
        };
    }
    nets
}

// Net j of a flip-flop.
fn latch_net(data: u16, enable: u16, clear: u16, j: usize) -> u16
    ensures { result ≡ latch_net «data» enable clear j }
{
    match j {
        0 => data,
        1 => enable,
        _ => clear,
    }
}

// The bits of x, and behind them the w bits of y.
fn join(x: u32, y: u16, w: usize) -> u32
    requires few { x < 2 ^ 20 }
    requires width { w ≤ net_bits }
    ensures { result ≡ joined x y w }
{
    (x << w) + u32::from(y)
}
