// Which vectors can occur at the inputs of two designs, and the number that names them: every one where nothing is said, or those that a
// number allows.
#![tactic(auto)]

ghost use Rattle.std.specs.Prelude.{◌≡◌, ◌^◌, ◌≤◌};
ghost use Rattle.machine.specs.Meaning.Allowed.{every_vector};
ghost use Rattle.panel.specs.Meaning.Panel.{allowed_by};

// The number that names the vectors which can occur, of those that so many inputs have.
pub fn allowed_by(named: Option<u64>, inputs: u8) -> u64
    requires { inputs ≤ 6 }
    ensures { result ≡ allowed_by named (2 ^ inputs) }
{
    match named {
        Some(number) => number,
        None => every(power(inputs)),
    }
}

// The number that allows every one of v vectors.
fn every(v: usize) -> u64
    requires { v ≤ 64 }
    ensures { result ≡ every_vector v }
{
    if v == 64 {
        return u64::MAX;
    }
    (1u64 << v) - 1
}

// How many numbers n bits have.
pub fn power(n: u8) -> usize
    requires { n ≤ 7 }
    ensures { result ≡ 2 ^ n }
{
    1usize << n
}
