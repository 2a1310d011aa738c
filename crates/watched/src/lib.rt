// The watched nets beside a design: what is wrong with their numbers, and the numbers by value.
#![tactic(auto)]

ghost use Rattle.watched.specs.Working.Watching.{Takes};

use memory::Refusal;
use netlist::Design;

// How many nets may be watched.
pub const MOST_WATCHED: usize = 8;

// Watched nets by value: how many there are, and their numbers.
#[derive(Clone, Copy)]
pub struct Watch {
    pub count: usize,
    pub nets: [u16; MOST_WATCHED],
}

// The watched nets of a design, taken from a slice of their numbers, of which the first of 5 and 21 that applies is looked for.
pub fn take(d: Design, watch: &[u16]) -> Result<Watch, Refusal>
    ensures { Takes d watch.now result }
{
    let count = watch.len();
    if ranges::listed_net_over(watch, count, d.nets()) {
        return Err(Refusal::NetOver);
    }
    if count > MOST_WATCHED {
        return Err(Refusal::OtherWatched);
    }
    let mut nets = [0u16; MOST_WATCHED];
    nets[..count].copy_from_slice(watch);
    Ok(Watch { count, nets })
}
