// Writing the netlist image of a design.
#![tactic(auto)]

mod layout;

ghost use Rattle.std.specs.Prelude.{length};
ghost use Rattle.writer.specs.Meaning.Writing.{Writes};

use memory::Refusal;
use netlist::Design;

// Writes the image of a design, and zero behind it: how many bytes it has.
pub fn write(d: Design, image: &mut [u8]) -> Result<usize, Refusal>
    ensures { Writes d (length image.old) result image.new }
{
    image.fill(0);
    order::fault_of(d)?;
    let h = layout::header(d);
    let bytes = h.bytes();
    if image.len() < bytes {
        return Err(Refusal::ShortSlice);
    }
    layout::put(d, h, bytes, image);
    Ok(bytes)
}
