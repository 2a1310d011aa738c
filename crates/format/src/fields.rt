// The fields of an image, each where the format has it.
ghost use Rattle.std.specs.Prelude.{◌≡◌, cond, eqb, ◌^◌, ◌<◌};
ghost use Rattle.limits.specs.Meaning.Layout.{count_bits, net_bits, nets_each};
ghost use Rattle.format.specs.Meaning.Format.{count_in, tail_in};
ghost use Rattle.format.specs.Working.Scanning.{SpellsHeader, SpellsCell};

pub use crate::header::Header;
use crate::header::tail_at;
use limits::Image;

pub fn header_of(image: &[u8]) -> Header
    ensures { SpellsHeader image.now result }
{
    let size = Image::SIZE_BITS;
    let taken = reader::run(image, 0, size, size, size, size, Image::COUNT_BITS);
    Header {
        version: taken.first,
        inputs: taken.second,
        latches: taken.third,
        outputs: taken.fourth,
        count: taken.fifth,
    }
}

// How many nets a flip-flop has in an image of a version.
pub fn nets_each(version: u16) -> usize
    ensures { result ≡ nets_each version }
{
    if version == 2 { Image::LATCH_NETS } else { 1 }
}

// How many of so many flip-flops have their enable and clear nets in an image of a version.
pub fn three_net_latches(version: u16, latches: u16) -> usize
    ensures { result ≡ cond (eqb version 2) latches 0 }
{
    if version == 2 {
        usize::from(latches)
    } else {
        0
    }
}

// The fields of a cell.
#[derive(Clone, Copy)]
pub struct CellFields {
    pub kind: u16,
    pub first: u16,
    pub second: u16,
}

pub fn cell(image: &[u8], i: usize) -> CellFields
    requires { i < 2 ^ count_bits }
    ensures { SpellsCell image.now i result }
{
    let at = Image::HEADER_BITS + Image::CELL_BITS * i;
    let taken = reader::run(
        image,
        at,
        Image::KIND_BITS,
        Image::NET_BITS,
        Image::NET_BITS,
        0,
        0,
    );
    CellFields {
        kind: taken.first,
        first: taken.second,
        second: taken.third,
    }
}

// Net t behind the cells, of which there are `count`.
pub fn tail(image: &[u8], count: usize, t: usize) -> u16
    requires count { count ≡ count_in image.now }
    requires cells { count < 2 ^ count_bits }
    requires t { t < 2 ^ net_bits }
    ensures { result ≡ tail_in image.now t }
{
    reader::run(image, tail_at(count, t), Image::NET_BITS, 0, 0, 0, 0).first
}
