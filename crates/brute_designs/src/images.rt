// The second reader and the second writer: they take the fields of an image from an array of single bits, and put them there.
ghost use Rattle.std.specs.Prelude.{◌≤◌};

use crate::plain::Plain;
use crate::{plain, recursion};
use limits::Image;

// Room for the longest image and some bytes more.
pub const BYTES: usize = Image::MOST_BYTES + 12;

const BITS: usize = 8 * BYTES;

#[derive(Clone, Copy)]
pub struct Bits {
    bits: [bool; BITS],
}

impl Bits {
    // The bits of a design in the version of its list.
    pub fn of(list: &Plain) -> Bits {
        let mut bits = Bits::zero();
        let mut from = 0usize;
        for place in 0..plain::NUMBERS {
            let n = list.width(place);
            bits.put(from, n, list.at(place));
            from = from.wrapping_add(n);
        }
        bits
    }

    pub fn zero() -> Bits {
        Bits {
            bits: [false; BITS],
        }
    }

    // The number that n bits from a place on spell.
    pub fn field(&self, from: usize, n: usize) -> usize {
        let mut number = 0;
        for k in 0..n {
            if let Some(bit) = self.bits.get(from.wrapping_add(k)) {
                number = (number << 1) | usize::from(*bit);
            }
        }
        number
    }

    // Puts a number as n bits from a place on.
    fn put(&mut self, from: usize, n: usize, number: usize) {
        let mut rest = number;
        for k in (0..n).rev() {
            if let Some(bit) = self.bits.get_mut(from.wrapping_add(k)) {
                *bit = rest % 2 == 1;
            }
            rest /= 2;
        }
    }

    // Flips one bit.
    pub fn flip(&mut self, place: usize) {
        if let Some(bit) = self.bits.get_mut(place) {
            *bit = !*bit;
        }
    }

    // Takes the version and the sizes, and then as many cells and nets as these say; an unread second net too.
    pub fn list(&self) -> Plain {
        let mut list = Plain::empty();
        let mut from = 0usize;
        for place in 0..plain::NUMBERS {
            let n = list.width(place);
            if n != 0 {
                list.put(place, self.field(from, n));
            }
            from = from.wrapping_add(n);
        }
        list
    }

    // Puts the first bits into bytes.
    pub fn pack(&self, bytes: &mut [u8]) {
        for (i, byte) in bytes.iter_mut().enumerate() {
            *byte = (self.field(i.wrapping_mul(8), 8) % 256) as u8;
        }
    }
}

// How many bytes an image of a design of these sizes has.
pub fn bytes(list: &Plain) -> usize
    ensures { result ≤ 500000 }
{
    (end(list) + 7) / 8
}

// How many bits the fields of a design of these sizes take.
fn end(list: &Plain) -> usize
    ensures { result ≤ 3900000 }
{
    let nets = list.latches() + list.outputs();
    let end = 25 + 21 * list.count() + 9 * nets;
    if list.version() != 2 {
        return end;
    }
    end + 18 * list.latches()
}

// The lowest number that applies to the first n bytes, from which a list was taken, if one does. One `if` after another, since a test may be
// slow, or without sense, where an earlier one applies.
pub fn number(bits: &Bits, n: usize, list: &Plain) -> Option<u8> {
    if n < 4 {
        return Some(1);
    }
    if list.version() != 1 && list.version() != 2 {
        return Some(2);
    }
    if recursion::size_over(list) {
        return Some(3);
    }
    let bytes = bytes(list);
    if n < bytes {
        return Some(4);
    }
    if recursion::net_over(list) {
        return Some(5);
    }
    if unread_set(list) {
        return Some(6);
    }
    if bits.field(end(list), 7 - (end(list) + 7) % 8) != 0 {
        return Some(7);
    }
    if bytes < n {
        return Some(8);
    }
    if recursion::loops(list) {
        return Some(9);
    }
    (list.lowest_version() < list.version()).then_some(19)
}

// Whether a cell that reads one net names a second.
fn unread_set(list: &Plain) -> bool {
    (0..list.count()).any(|i| {
        let place = i.wrapping_mul(3).wrapping_add(plain::CELLS);
        list.at(place) < 2 && list.at(place.wrapping_add(2)) != 0
    })
}

// The first place at which two slices differ.
pub fn first_difference(one: &[u8], other: &[u8]) -> Option<usize> {
    one.iter().zip(other).position(|(a, b)| a != b)
}
