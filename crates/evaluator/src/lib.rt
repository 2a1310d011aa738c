// The values of the nets in one clock.
//
// The sources are set first; then one sweep over the kept cells, in an order in which each reads only nets that have their value already,
// sets theirs. The nets of dead cells stay 0.
#![tactic(auto)]

ghost use Rattle.std.specs.Prelude.{◌≡◌, ℕ, ◌+◌, ◌^◌, ◌<◌, ◌≤◌, get_or};
ghost use Rattle.numbers.specs.Meaning.Bits.{horner};
ghost use Rattle.memory.specs.Working.Filling.{Filled};
ghost use Rattle.netlist.specs.Meaning.Gates.{first_of, second_of};
ghost use Rattle.netlist.specs.Meaning.Nets.{cell_base, gate_value, source, value, latched, next_state, outputs};
ghost use Rattle.netlist.specs.Working.Sound.{Sound};
ghost use Rattle.evaluator.specs.Working.Values.{most_nets, Evaluable, WatchedNets, watched_in, Holds, Readable, Latchable, latched_in, Spreads};

use limits::Image;
use netlist::{Design, Gate};
use order::Plan;
use watched::Watch;

#[derive(Clone, Copy)]
pub struct Stepped {
    pub next: u8,
    pub out: u8,
}

// One clock of a design with an order of its kept cells.
pub fn step(d: Design, plan: Plan, s: usize, v: usize) -> Stepped
    requires { Evaluable d plan.kept plan.cells }
    ensures { (result.next ≡ next_state d s v) × (result.out ≡ outputs d s v) }
{
    let nothing = Watch {
        count: 0,
        nets: [0u16; watched::MOST_WATCHED],
    };
    let o = observe(d, plan, nothing, s, v);
    Stepped {
        next: o.next,
        out: o.out,
    }
}

#[derive(Clone, Copy)]
pub struct Observed {
    pub next: u8,
    pub out: u8,
    pub seen: u8,
}

// One clock, and what the watched nets show before it.
pub fn observe(d: Design, plan: Plan, watch: Watch, s: usize, v: usize) -> Observed
    requires evaluable { Evaluable d plan.kept plan.cells }
    requires watched_nets { WatchedNets d watch.count watch.nets }
    ensures { (result.next ≡ next_state d s v) × (result.out ≡ outputs d s v) × (result.seen ≡ watched_in d watch.count watch.nets s v) }
{
    let vals = values(d, plan, s, v);
    Observed {
        next: next_word(&d, &vals),
        out: word(&d.shown, usize::from(d.outputs), &vals),
        seen: word(&watch.nets, watch.count, &vals),
    }
}

// How many numbers n bits have.
pub fn power(n: u8) -> usize
    requires { n ≤ 8 }
    ensures { (result ≡ 2 ^ n) × (result ≤ 256) }
{
    1usize << n
}

// The value of every net, by one sweep over the kept cells.
fn values(d: Design, plan: Plan, s: usize, v: usize) -> [u8; Image::MOST_NETS]
    requires { Evaluable d plan.kept plan.cells }
    ensures { Holds (value d s v) result }
{
    let base = d.cell_base();
    let mut vals = sources(d, s, v);
    for k in 0..plan.kept {
        let i = usize::from(plan.cells[k]);
        vals[base + i] = gate_value(d.cells[i].gate, &vals);
    }
    vals
}

// The nets that no cell drives, and 0 beyond.
fn sources(d: Design, s: usize, v: usize) -> [u8; Image::MOST_NETS]
    requires { Sound d }
    ensures { Filled (source d s v) 0 most_nets (cell_base d) result }
{
    let inputs = usize::from(d.inputs);
    let latches = usize::from(d.latches);
    let mut vals = [0u8; Image::MOST_NETS];
    vals[0] = 0;
    vals[1] = 1;
    spread(&mut vals, 2, inputs, v);
    spread(&mut vals, 2 + inputs, latches, s);
    vals
}

// Puts the bits of a number, the most significant first, at the nets from a start on.
fn spread(vals: &mut [u8; Image::MOST_NETS], start: usize, width: usize, number: usize)
    requires room { start + width ≤ most_nets }
    requires few { width ≤ 8 }
    ensures { Spreads start width number width vals.old vals.new }
{
    for j in 0..width {
        let weight = width - (j + 1);
        vals[start + j] = ((number >> weight) % 2) as u8;
    }
}

// What a gate makes of the values of the nets that it reads: of two values AND, OR or XOR, or one of these inverted.
fn gate_value(g: Gate, vals: &[u8; Image::MOST_NETS]) -> u8
    requires first { first_of g < most_nets }
    requires second { second_of g < most_nets }
    requires bits { (n : ℕ) → get_or vals.now n 0 < 2 }
    ensures { result ≡ gate_value g (λ n. get_or vals.now n 0) }
{
    let at = |net: u16| vals[usize::from(net)];
    match g {
        Gate::Buf(a) => at(a),
        Gate::Not(a) => at(a) ^ 1,
        Gate::And(a, b) => at(a) & at(b),
        Gate::Or(a, b) => at(a) | at(b),
        Gate::Xor(a, b) => at(a) ^ at(b),
        Gate::Nand(a, b) => (at(a) & at(b)) ^ 1,
        Gate::Nor(a, b) => (at(a) | at(b)) ^ 1,
        Gate::Xnor(a, b) => at(a) ^ at(b) ^ 1,
    }
}

// The number that the flip-flops hold after the clock, the first most significant.
fn next_word(d: &Design, vals: &[u8; Image::MOST_NETS]) -> u8
    requires { Latchable d.now.«data» d.now.enable d.now.clear (2 + d.now.inputs) d.now.latches vals.now }
    ensures { result ≡ horner (latched_in d.now.«data» d.now.enable d.now.clear (2 + d.now.inputs) vals.now) d.now.latches }
{
    let own = 2 + usize::from(d.inputs);
    let bit = |k: usize| {
        let clear = value_of(&d.clear, k, vals);
        let enable = value_of(&d.enable, k, vals);
        let data = value_of(&d.data, k, vals);
        u16::from(latch(clear, enable, data, vals[own + k]))
    };
    numbers::spelled(usize::from(d.latches), bit) as u8
}

// The value of the net at a place of a list.
fn value_of(nets: &[u16], k: usize, vals: &[u8; Image::MOST_NETS]) -> u8
    requires { get_or nets.now k 0 < most_nets }
    ensures { result ≡ get_or vals.now (get_or nets.now k 0) 0 }
{
    vals[netlist::net_at(nets, k)]
}

// What a flip-flop that holds a bit makes of its three values.
fn latch(clear: u8, enable: u8, data: u8, held: u8) -> u8
    ensures { result ≡ latched clear enable «data» held }
{
    if clear != 0 {
        0
    } else if enable != 0 {
        data
    } else {
        held
    }
}

// The number that the values of the first n nets of a list spell, the first net most significant.
fn word(nets: &[u16], n: usize, vals: &[u8; Image::MOST_NETS]) -> u8
    requires { Readable nets.now n vals.now }
    ensures { result ≡ horner (λ k. get_or vals.now (get_or nets.now k 0) 0) n }
{
    numbers::spelled(n, |k| u16::from(value_of(nets, k, vals))) as u8
}
