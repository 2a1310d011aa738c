// Reads the number that names the allowed vectors and two netlist images, back to back, and prints whether the second design can replace
// the first, whatever state either wakes in, where no other vectors occur.
#![tactic(auto)]

ghost use Rattle.std.specs.Prelude.{◌≡◌, ◌+◌, ◌*◌, ◌≤◌, length};
ghost use Rattle.streams.specs.Meaning.Input.{Within};
ghost use Rattle.streams.specs.Meaning.Output.{Sends};
ghost use Rattle.align_allowed.specs.Meaning.Allowing.{allowed_in, OutputsAllowed, most_read_allowed, unread_allowed};

use limits::Image;
use streams::{Output, STDOUT};

// The bytes of the number.
const NUMBER: usize = 8;

// The most steps of a list.
const STEPS: usize = 32768;

// Room for any text: what stands in front of a list, and a line for each of its steps.
const TEXT: usize = 400 + 12 * STEPS;

fn main(rt: HostRuntime) {
    // One byte more than the number and two images have, so that longer input is noticed.
    let mut room = [0u8; NUMBER + 2 * Image::MOST_BYTES + 1];
    let input = streams::read_input(&mut rt.stdin(), &mut room);
    let mut text = [0u8; TEXT];
    let sent = answer(&room, input, &mut text);
    streams::write_output(
        sent,
        &text,
        b"align_allowed: the answer cannot be written\n",
    );
}

// Puts what the program writes of its room into a text: what it prints of what was read, or the words that nothing could be read.
fn answer(room: &[u8], input: Option<usize>, text: &mut [u8]) -> Output
    requires { (length room.now ≡ most_read_allowed) × (Within input room.now) × (400 + 12 * 32768 ≤ length text.old) }
    ensures { Sends unread_allowed OutputsAllowed input room.now text.new result.stream result.length }
{
    let Some(n) = input else {
        return streams::put_unread(b"align_allowed: standard input cannot be read\n", text);
    };
    let mut list = [0u8; STEPS];
    let read = &room[..n];
    let images = NUMBER.min(n);
    let length = align_report::write_report(
        &read[images..],
        Some(allowed_in(read)),
        &mut list,
        text,
    );
    Output {
        stream: STDOUT,
        length,
    }
}

// The number in the first eight bytes, of which the first is the most significant; past their end there are zeros.
fn allowed_in(input: &[u8]) -> u64
    ensures { result ≡ allowed_in input.now }
{
    let parts = reader::run(input, 0, 16, 16, 16, 16, 0);
    let high = u64::from(parts.first) * 65536 + u64::from(parts.second);
    let low = u64::from(parts.third) * 65536 + u64::from(parts.fourth);
    high * 4294967296 + low
}
