// Numbers: the bits of a number, how many numbers below a bound pass a test, and laws on their order.
#![tactic(auto)]

ghost use Rattle.std.specs.Prelude.{◌≡◌, ◌^◌, ◌<◌, ◌≤◌, ℕ};
ghost use Rattle.numbers.specs.Meaning.Bits.{horner};

// The number that `width` bits spell, the first most significant.
pub fn spelled<F: Fn(usize) -> u16>(width: usize, bit: F) -> u16
    requires few { width ≤ 16 }
    requires callable { (k : ℕ) → k < width → F.pre bit k }
    requires bits { (k b : ℕ) → k < width → F.post bit k b → b < 2 }
    ensures value { (f : ℕ → ℕ) → ((k b : ℕ) → k < width → F.post bit k b → b ≡ f k) → result ≡ horner f width }
    ensures fits { result < 2 ^ width }
{
    let mut n: u16 = 0;
    for k in 0..width {
        n = n * 2 + bit(k);
    }
    n
}
