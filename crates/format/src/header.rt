// The header of an image, and what it says of the fields behind it.
ghost use Rattle.std.specs.Prelude.{◌≡◌, cond, eqb, ◌+◌, ◌*◌, ◌^◌, ◌<◌, ◌≤◌};
ghost use Rattle.limits.specs.Meaning.Layout.{count_bits, net_bits, nets_each, tails_for, bits_for, bytes_for};
ghost use Rattle.format.specs.Meaning.Format.{cell_at};
ghost use Rattle.format.specs.Working.Widths.{Narrow};

use crate::fields;
use limits::{DesignSizes, Image};

// The fields of the header, none of them wider than the format has it.
#[derive(Clone, Copy)]
pub struct Header {
    pub version: u16,
    pub inputs: u16,
    pub latches: u16,
    pub outputs: u16,
    pub count: u16,
    ghost narrow: { Narrow inputs latches outputs count },
}

impl Header {
    pub fn sizes(self) -> DesignSizes
        ensures { result ≡ record { inputs = self.inputs; latches = self.latches; outputs = self.outputs; cells = self.count } }
    {
        DesignSizes {
            inputs: usize::from(self.inputs),
            latches: usize::from(self.latches),
            outputs: usize::from(self.outputs),
            cells: usize::from(self.count),
        }
    }

    // How many nets it gives.
    pub fn nets(self) -> u16
        ensures { result ≡ 2 + self.inputs + self.latches + self.count }
    {
        2 + self.inputs + self.latches + self.count
    }

    // How many nets a flip-flop has in the image.
    pub fn nets_each(self) -> usize
        ensures { result ≡ nets_each self.version }
    {
        fields::nets_each(self.version)
    }

    // How many flip-flops have their enable and clear nets in the image.
    pub fn three_net_latches(self) -> usize
        ensures { result ≡ cond (eqb self.version 2) self.latches 0 }
    {
        fields::three_net_latches(self.version, self.latches)
    }

    // How many nets stand behind the cells.
    pub fn tails(self) -> usize
        ensures value { result ≡ tails_for self.version self.latches self.outputs }
        ensures fits { result < 2 ^ net_bits }
    {
        self.nets_each() * usize::from(self.latches) + usize::from(self.outputs)
    }

    // How many bits the fields take.
    pub fn bits(self) -> usize
        ensures value { result ≡ bits_for self.version self.count self.latches self.outputs }
        ensures fits { result < 16384 }
    {
        tail_at(usize::from(self.count), self.tails())
    }

    // How many bytes the image takes, the pad with it.
    pub fn bytes(self) -> usize
        ensures value { result ≡ bytes_for self.version self.count self.latches self.outputs }
        ensures fits { result ≤ 2048 }
    {
        (self.bits() + 7) / 8
    }
}

// Where net t behind the cells stands.
pub(crate) fn tail_at(cells: usize, t: usize) -> usize
    requires cells { cells < 2 ^ count_bits }
    requires t { t < 2 ^ net_bits }
    ensures { result ≡ cell_at cells + net_bits * t }
{
    Image::HEADER_BITS + Image::CELL_BITS * cells + Image::NET_BITS * t
}
