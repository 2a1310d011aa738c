// What the program `inspect` does with its input: one image is read, and its sizes or its refusal written as a line.
#![tactic(auto)]

ghost use Rattle.std.specs.Prelude.{◌≡◌, ◌≤◌, length};
ghost use Rattle.pieces.specs.Meaning.Pieces.{Printed};
ghost use Rattle.streams.specs.Meaning.Input.{Within};
ghost use Rattle.streams.specs.Meaning.Output.{Sends};
ghost use Rattle.inspector.specs.Meaning.Shown.{most_read, unread_message, sizes_text, Inspects};

use netlist::Design;
use pieces::Text;
use streams::{Output, STDOUT};

// Puts what the program writes of its room into a text: the line of the image that was read, or the message that nothing could be read.
// The room has one byte more than the largest image, so that bytes left over are noticed.
pub fn answer(room: &[u8], input: Option<usize>, text: &mut [u8]) -> Output
    requires { (length room.now ≡ most_read) × (Within input room.now) × (120 ≤ length text.old) }
    ensures { Sends unread_message Inspects input room.now text.new result.stream result.length }
{
    let Some(n) = input else {
        return streams::put_unread(b"inspect: standard input cannot be read\n", text);
    };
    let reading = image::read(&room[..n]);
    let length = match reading.answer {
        Ok(()) => put_sizes(reading.design, text),
        Err(reason) => {
            let number = usize::from(reason.number());
            pieces::put_line(b"REFUSED ", number, text)
        }
    };
    Output {
        stream: STDOUT,
        length,
    }
}

// The sizes of a design, in one line.
fn put_sizes(design: Design, text: &mut [u8]) -> usize
    requires { 120 ≤ length text.old }
    ensures { Printed (sizes_text design) text.new result }
{
    let mut line = Text::new(text);
    line.put_field(b"INPUTS ", usize::from(design.inputs));
    line.put_field(b" OUTPUTS ", usize::from(design.outputs));
    line.put_field(b" LATCHES ", usize::from(design.latches));
    line.put_last_field(b" CELLS ", usize::from(design.count));
    line.end
}
