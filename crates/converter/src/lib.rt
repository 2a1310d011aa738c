// What the program `convert` does with its input: a drawing in ASCII AIGER is read, and the image of its design written, or its refusal.
#![tactic(auto)]

ghost use Rattle.std.specs.Prelude.{◌≡◌, [], ◌+◌, ◌≤◌, length, take};
ghost use Rattle.limits.specs.Meaning.Layout.{most_bytes};
ghost use Rattle.memory.specs.Working.Tests.{Tells};
ghost use Rattle.lines.specs.Meaning.Spelling.{words_at};
ghost use Rattle.netlist.specs.Meaning.Faults.{Accepted};
ghost use Rattle.streams.specs.Meaning.Input.{Within};
ghost use Rattle.streams.specs.Meaning.Output.{Sends};
ghost use Rattle.converter.specs.Meaning.Output.{most_text, unread_message, Converts};
ghost use Rattle.converter.specs.Working.Images.{HoldsWhole};

use netlist::Design;
use streams::{Output, STDERR, STDOUT};

// The program's input: a text of up to a mebibyte, or the front of a longer one.
#[derive(Clone, Copy)]
pub struct Text {}

impl Text {
    pub const MOST_BYTES: usize = 1 << 20;

    // Room for one byte more than the longest text that is read whole, so that a longer one is noticed.
    pub fn room() -> [u8; Text::MOST_BYTES + 1]
        ensures { length result ≡ most_text + 1 }
    {
        [0u8; Text::MOST_BYTES + 1]
    }
}

// Puts what the program writes of its room into a slice: of what was read an image, a refusal, or the message that it leaves the answer
// open; or the message that nothing could be read.
pub fn answer(room: &[u8], input: Option<usize>, out: &mut [u8]) -> Output
    requires { (length room.now ≡ most_text + 1) × (Within input room.now) × (most_bytes ≤ length out.old) }
    ensures { Sends unread_message Converts input room.now out.new result.stream result.length }
{
    let Some(n) = input else {
        return streams::put_unread(b"convert: standard input cannot be read\n", out);
    };
    convert(room, n, out)
}

// The same of the first n bytes of the room. The front of a longer text answers for all of it, unless no line feed ends its first line.
fn convert(room: &[u8], n: usize, out: &mut [u8]) -> Output
    requires { (length room.now ≡ most_text + 1) × (n ≤ length room.now) × (most_bytes ≤ length out.old) }
    ensures { Converts (take n room.now) out.new result.stream result.length }
{
    let text = &room[..n];
    if n > Text::MOST_BYTES && unended(text) {
        let length = pieces::put_message(
            b"convert: no line feed in the first 1,048,577 bytes, and no more are read\n",
            out,
        );
        return Output {
            stream: STDERR,
            length,
        };
    }
    let reading = aiger::read(text);
    let length = match reading.answer {
        Ok(()) => put_image(reading.design, out),
        Err(reason) => {
            let number = usize::from(reason.number());
            pieces::put_line(b"REFUSED ", number, out)
        }
    };
    Output {
        stream: STDOUT,
        length,
    }
}

// Whether no line feed ends the first line.
fn unended(text: &[u8]) -> bool
    ensures { Tells result (words_at text.now 0 ≡ []) }
{
    !text.contains(&b'\n')
}

// The image of an accepted design, which has room.
fn put_image(design: Design, out: &mut [u8]) -> usize
    requires { (Accepted design) × (most_bytes ≤ length out.old) }
    ensures { HoldsWhole design out.new result }
{
    writer::write(design, out).unwrap()
}
