// The netlist image: its length, and the design that it spells.
#![tactic(auto)]

mod decode;

ghost use Rattle.std.specs.Prelude.{◌≡◌, Err};
ghost use Rattle.image.specs.Meaning.Reading.{Measures, ReadsImage, empty_design};
ghost use Rattle.image.specs.Working.Decoding.{Decodes};

use format::{faults, fields, version};
use memory::Refusal;
use netlist::Design;

// How many bytes the image at the front of a slice takes. What follows it is not looked at, so that images can stand back to back.
pub fn length_of(image: &[u8]) -> Result<usize, Refusal>
    ensures { Measures image.now result }
{
    let h = fields::header_of(image);
    faults::header_fault(image.len(), h).map(|_| h.bytes())
}

// Whether an image is accepted, and beside that its design, or the empty one. A reader refuses by a Refusal, `refusal` by whatever it is given.
// Not a Result of the design: of a refusal `ReadsImage` promises the empty design beside it, to which the edits empty_design_has_an_input and
// empty_design_never_enabled hold.
#[derive(Clone, Copy)]
pub struct Reading<E = Refusal> {
    pub answer: Result<(), E>,
    pub design: Design,
}

// The design that an image spells.
pub fn read(image: &[u8]) -> Reading
    ensures { ReadsImage image.now result }
{
    match decoded(image) {
        Ok(design) => Reading {
            answer: Ok(()),
            design,
        },
        Err(reason) => refusal(reason),
    }
}

// The same by itself.
fn decoded(image: &[u8]) -> Result<Design, Refusal>
    ensures { Decodes image.now result }
{
    let h = fields::header_of(image);
    faults::header_fault(image.len(), h)?;
    let design = decode::decode(image, h);
    faults::field_fault(
        image,
        h,
        order::fault_of(design),
        version::version_of(design),
    )?;
    Ok(design)
}

// A refusal by whatever it is given, a reader's reason or a bare number, with the empty design beside it; no answer by itself.
pub fn refusal<E>(reason: E) -> Reading<E>
    ensures { (result.answer ≡ Err reason) × (result.design ≡ empty_design) }
{
    Reading {
        answer: Err(reason),
        design: decode::empty(),
    }
}
