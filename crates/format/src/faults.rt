// What is wrong with an image.
ghost use Rattle.std.specs.Prelude.{◌≡◌, ◌⊎◌, List, ℕ, ◌+◌, ◌-◌, ◌*◌, ◌^◌, ◌<◌, ◌≤◌, length};
ghost use Rattle.memory.specs.Meaning.Refusals.{Free, Checked};
ghost use Rattle.memory.specs.Working.Tests.{Splits};
ghost use Rattle.netlist.specs.Meaning.Faults.{DesignFault};
ghost use Rattle.format.specs.Meaning.Version.{version_of};
ghost use Rattle.limits.specs.Meaning.Layout.{count_bits};
ghost use Rattle.reader.specs.Meaning.Fields.{field_at};
ghost use Rattle.format.specs.Meaning.Format.{decoded, count_in};
ghost use Rattle.format.specs.Meaning.Faults.{ImageFault, HeaderFault};
ghost use Rattle.format.specs.Working.Scanning.{SpellsHeader, UnreadAbove, UnreadBelow};

use crate::fields;
use crate::header::Header;
use memory::Refusal;

// The lowest number up to 4 that applies to an image of so many bytes with this header.
pub fn header_fault(bytes: usize, h: Header) -> Result<(), Refusal>
    ensures { (b : List ℕ) → length b ≡ bytes → SpellsHeader b h → Checked (HeaderFault b) result }
{
    if bytes < 4 {
        return Err(Refusal::FewBytes);
    }
    if other_version(h.version) {
        return Err(Refusal::OtherVersion);
    }
    if h.sizes().over_limit() {
        return Err(Refusal::SizeOver);
    }
    if bytes < h.bytes() {
        return Err(Refusal::EndsEarly);
    }
    Ok(())
}

// Whether a version is neither 1 nor 2.
fn other_version(version: u16) -> bool
    ensures { Splits result ((version ≡ 1 → ⊥) × (version ≡ 2 → ⊥)) ((version ≡ 1) ⊎ (version ≡ 2)) }
{
    version != 1 && version != 2
}

// The first number that applies to an image whose header is sound. `found` is what its design was found to have: that is 5 for
// a net that is read, and 9; `needed` is the version that the design needs. Nets that no cell reads, the pad, the length and a version
// that is not needed are left to look at.
pub fn field_fault(
    image: &[u8],
    h: Header,
    found: Result<(), Refusal>,
    needed: u16,
) -> Result<(), Refusal>
    requires spelled { SpellsHeader image.now h }
    requires sound { Free (HeaderFault image.now) }
    requires found { Checked (DesignFault (decoded image.now)) found }
    requires needed { needed ≡ version_of (decoded image.now) }
    ensures { Checked (ImageFault image.now) result }
{
    if net_over(found) {
        return Err(Refusal::NetOver);
    }
    let count = usize::from(h.count);
    if unread_above(image, count, h.nets() - 1) {
        return Err(Refusal::NetOver);
    }
    if unread_above(image, count, 0) {
        return Err(Refusal::UnreadNet);
    }
    let bytes = h.bytes();
    if pad(image, h.bits(), bytes) != 0 {
        return Err(Refusal::PadSet);
    }
    if image.len() > bytes {
        return Err(Refusal::BytesLeft);
    }
    found?;
    if h.version != needed {
        return Err(Refusal::NeedlessVersion);
    }
    Ok(())
}

// Whether a design was found to have a net out of range.
fn net_over(found: Result<(), Refusal>) -> bool
    ensures { Splits result (found ≡ Err Refusal.NetOver) (found ≡ Err Refusal.NetOver → ⊥) }
{
    matches!(found, Err(Refusal::NetOver))
}

// The number that the bits from `end` to the end of the image's last byte spell.
fn pad(image: &[u8], end: usize, bytes: usize) -> u16
    requires { (end ≤ 8 * bytes) × ((8 * bytes < end + 8) × (bytes ≤ 2048)) }
    ensures { result ≡ field_at image.now end (8 * bytes - end) }
{
    reader::run(image, end, 8 * bytes - end, 0, 0, 0, 0).first
}

// Whether the second net of some cell that reads one net is above `most`; there are `count` cells.
fn unread_above(image: &[u8], count: usize, most: u16) -> bool
    requires { (count ≡ count_in image.now) × (count < 2 ^ count_bits) }
    ensures { Splits result (UnreadAbove image.now most) (UnreadBelow image.now most (count_in image.now)) }
{
    for i in 0..count {
        let cell = fields::cell(image, i);
        // By ranges, as document 01 has the kinds.
        match cell.kind {
            0..=1 => {
                if cell.second > most {
                    return true;
                }
            }
            2..=7 => {}
            _ => {}
        }
    }
    false
}
