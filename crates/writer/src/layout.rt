// The image of a design, byte by byte.
ghost use Rattle.std.specs.Prelude.{◌≡◌, ◌+◌, ◌<◌, ◌≤◌, length};
ghost use Rattle.numbers.specs.Meaning.Bits.{bit_of};
ghost use Rattle.memory.specs.Meaning.Slices.{Zero};
ghost use Rattle.netlist.specs.Working.Sound.{Sound};
ghost use Rattle.limits.specs.Meaning.Layout.{most_bytes};
ghost use Rattle.format.specs.Meaning.Format.{bytes_of};
ghost use Rattle.writer.specs.Meaning.Writing.{HoldsImage};
ghost use Rattle.packing.specs.Working.{Heads};
ghost use Rattle.writer.specs.Working.Words.{words_bit, words_byte};

use format::{Header, version};
use limits::Image;
use netlist::Design;
use packing::Words;

// The header of the image of a design.
pub(crate) fn header(d: Design) -> Header
    requires { Sound d }
    ensures { Heads d result }
{
    Header {
        version: version::version_of(d),
        inputs: u16::from(d.inputs),
        latches: u16::from(d.latches),
        outputs: u16::from(d.outputs),
        count: d.count,
    }
}

// Writes the image of a design into a cleared slice.
pub(crate) fn put(d: Design, h: Header, bytes: usize, image: &mut [u8])
    requires sound { Sound d }
    requires heads { Heads d h }
    requires bytes { bytes ≡ bytes_of d }
    requires room { bytes ≤ length image.old }
    requires zero { Zero image.old }
    ensures { (length image.new ≡ length image.old) × (HoldsImage d image.new bytes) }
{
    let words = packing::words_of(d, h);
    for k in 0..bytes {
        image[k] = byte_at(&words, k);
    }
}

// Byte k of an image.
fn byte_at(words: &Words, k: usize) -> u8
    requires { k < most_bytes }
    ensures { result ≡ words_byte words.now k }
{
    numbers::spelled(8, |j| bit_at(words, 8 * k + j)) as u8
}

// Bit i of an image.
#[tactic(auto, unfolding(crate::specs::Working::Words::word_bit))]
fn bit_at(words: &Words, i: usize) -> u16
    ensures { result ≡ words_bit words.now i }
{
    let behind = Image::HEADER_BITS + Image::CELL_BITS * words.count;
    if i < Image::HEADER_BITS {
        return digit(Image::HEADER_BITS, words.header, i);
    }
    if i < behind {
        let o = i - Image::HEADER_BITS;
        let cell = words.cells[o / Image::CELL_BITS];
        return digit(Image::CELL_BITS, cell, o % Image::CELL_BITS);
    }
    if i < behind + Image::NET_BITS * words.tails {
        let o = i - behind;
        let net = u32::from(words.tail[o / Image::NET_BITS]);
        return digit(Image::NET_BITS, net, o % Image::NET_BITS);
    }
    0
}

// Bit j of a number of w bits.
fn digit(w: usize, x: u32, j: usize) -> u16
    requires within { j < w }
    requires width { w ≤ 32 }
    ensures { result ≡ bit_of w x j }
{
    ((x >> (w - (j + 1))) % 2) as u16
}
