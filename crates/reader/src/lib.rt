// Bits and bit fields of an image, and the reader that knows its bytes and its bit position.
#![tactic(auto)]

ghost use Rattle.std.specs.Prelude.{◌≡◌, ◌^◌, ◌<◌, ◌≤◌};
ghost use Rattle.reader.specs.Meaning.Fields.{bit_at, field_at};
ghost use Rattle.reader.specs.Working.Taking.{opened, taken, run_at};

// The numbers of five fields that stand in a row.
#[derive(Clone, Copy)]
pub struct Numbers {
    pub first: u16,
    pub second: u16,
    pub third: u16,
    pub fourth: u16,
    pub fifth: u16,
}

// Takes five fields one behind the other, from bit `at` on; a field of no bits is 0. One call for
// all: the program align_allowed takes its four words by this contract too.
pub fn run(image: &[u8], at: usize, a: usize, b: usize, c: usize, d: usize, e: usize) -> Numbers
    requires { (at < 65472) × ((a ≤ 16) × ((b ≤ 16) × ((c ≤ 16) × ((d ≤ 16) × (e ≤ 16))))) }
    ensures { result ≡ run_at image.now at a b c d e }
{
    let one = open(image, at).take(a);
    let two = one.take(b);
    let three = two.take(c);
    let four = three.take(d);
    let five = four.take(e);
    Numbers {
        first: one.number,
        second: two.number,
        third: three.number,
        fourth: four.number,
        fifth: five.number,
    }
}

// An image, a bit position in it, and the number of the field that was taken last: `take` hands back one value, by which the next field is
// taken.
#[derive(Clone, Copy)]
pub struct BitReader<'a> {
    pub image: &'a [u8],
    pub at: usize,
    pub number: u16,
}

impl<'a> BitReader<'a> {
    // Takes the next field, of `width` bits, and moves on behind it.
    pub fn take(self, width: usize) -> BitReader<'a>
        requires { (self.at < 65536) × (width ≤ 16) }
        ensures { result ≡ taken self.entry width }
    {
        let number = spell(self.image, self.at, width);
        BitReader {
            image: self.image,
            at: self.at + width,
            number,
        }
    }
}

pub fn open<'a>(image: &'a [u8], at: usize) -> BitReader<'a>
    ensures { result ≡ opened image.entry at }
{
    BitReader {
        image,
        at,
        number: 0,
    }
}

// The number that `width` bits of a slice spell.
fn spell(image: &[u8], at: usize, width: usize) -> u16
    requires { (at < 65536) × (width ≤ 16) }
    ensures { (result ≡ field_at image.now at width) × (result < 2 ^ width) }
{
    numbers::spelled(width, |k| bit(image, at + k))
}

// Bit i of the image, 0 past its end.
fn bit(image: &[u8], i: usize) -> u16
    ensures { result ≡ bit_at image.now i }
{
    let byte = image.get(i / 8).copied().unwrap_or(0);
    u16::from((byte >> (7 - i % 8)) % 2)
}
