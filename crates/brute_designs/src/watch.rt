// Watched nets beside a design, told from its own numbers: none to nine, of which nine are too many, and some that the design does not have.
ghost use Rattle.std.specs.Prelude.{◌≤◌};

use crate::plain::Plain;
use crate::{plain, recursion};

// How many nets are watched.
pub fn many(list: &Plain) -> usize
    ensures { result ≤ 9 }
{
    (list.count() + 3 * list.outputs()) % 10
}

// The nets that are watched, of those that a design offers.
#[derive(Clone, Copy)]
pub struct Watch {
    offered: [u16; 9],
    many: usize,
}

impl Watch {
    // The first of the nets. Where the sizes say so, one may be too high.
    pub fn of(list: &Plain, many: usize) -> Watch {
        let over = (list.count() + list.latches()) % 8 / 7;
        let most = list.nets() + over;
        let mut offered = [0; 9];
        for (k, net) in offered.iter_mut().enumerate() {
            let place = k.wrapping_mul(3).wrapping_add(plain::CELLS + 1);
            let number = k.wrapping_mul(5).wrapping_add(list.at(place)) % (most + 1);
            let too_high = over == 0 && number == most;
            *net = if too_high { 1 } else { (number % 65536) as u16 };
        }
        Watch { offered, many }
    }

    pub fn nets(&self) -> &[u16] {
        self.offered.get(..self.many).unwrap_or(&[])
    }

    // The first number that applies to a design and these nets, if one does; `own` is that of the design.
    pub fn number(&self, list: &Plain, own: Option<u8>) -> Option<u8> {
        let most = list.nets();
        let over = self.nets().iter().any(|net| most <= usize::from(*net));
        if over && own.is_none_or(|number| 5 < number) {
            return Some(5);
        }
        own.or((8 < self.many).then_some(21))
    }

    // A design that shows as its outputs what the nets show: those of dead cells are net 0.
    pub fn shown(&self, list: &Plain) -> Plain {
        let mut other = *list;
        other.put(plain::OUTPUTS, self.many);
        for (k, net) in self.nets().iter().take(8).enumerate() {
            let net = usize::from(*net);
            let dead = list.first_cell() <= net && !recursion::kept(list, net);
            other.put(k.wrapping_add(plain::SHOWN), if dead { 0 } else { net });
        }
        other
    }
}
