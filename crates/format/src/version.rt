// Which version the image of a design has.
ghost use Rattle.std.specs.Prelude.{◌≡◌, ◌<◌, ◌↔◌, ℕ, IsTrue, get_or};
ghost use Rattle.format.specs.Meaning.Version.{version_of};

use netlist::Design;

// The version of the image of a design: 1 where every flip-flop has enable net 1 and clear net 0, else 2.
pub fn version_of(d: Design) -> u16
    ensures { result ≡ version_of d }
{
    if plain_to(&d.enable, &d.clear, usize::from(d.latches)) {
        1
    } else {
        2
    }
}

fn plain_to(enable: &[u16], clear: &[u16], n: usize) -> bool
    ensures { IsTrue result ↔ ((k : ℕ) → k < n → (get_or enable.now k 0 ≡ 1) × (get_or clear.now k 0 ≡ 0)) }
{
    (0..n).all(|k| netlist::net_at(enable, k) == 1 && netlist::net_at(clear, k) == 0)
}
