// A map whose numbers are at most 255, kept a byte a pair: where two maps are needed at once, it leaves the slice of 16-bit numbers, in which
// maps are sought and lists are found, to the other. Both functions go by an index, since a proof knows nothing of what is written through
// an adapter of `iter_mut`; and they are two, since one would take the conversion as a closure and its bound as a clause, and be longer.
#![tactic(auto)]

ghost use Rattle.std.specs.Prelude.{ℕ, ◌<◌, ◌≤◌, length, get_or};
ghost use Rattle.byte_map.specs.Working.{Copied};

// Puts the first n numbers of a map, of which none is over 255, into bytes.
pub fn put(map: &[u16], n: usize, bytes: &mut [u8])
    requires n_in_bounds { n ≤ length map.now }
    requires n_in_bounds_2 { n ≤ length bytes.old }
    requires by_index { (q : ℕ) → q < n → get_or map.now q 0 ≤ 255 }
    ensures { Copied map.now n bytes.old bytes.new }
{
    for i in 0..n {
        bytes[i] = map[i] as u8;
    }
}

// Takes the first n numbers of a map back from the bytes.
pub fn take_back(bytes: &[u8], n: usize, map: &mut [u16])
    requires n_in_bounds { n ≤ length bytes.now }
    requires n_in_bounds_2 { n ≤ length map.old }
    ensures { Copied bytes.now n map.old map.new }
{
    for i in 0..n {
        map[i] = u16::from(bytes[i]);
    }
}
