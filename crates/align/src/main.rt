// Reads two netlist images back to back, and prints whether the second design can replace the first whatever state either wakes in.
#![tactic(auto)]

use limits::Image;

// Room for any text: what stands in front of a list, and a line for each of its 32,768 steps.
const TEXT: usize = 400 + 12 * 32768;

fn main(rt: HostRuntime) {
    // One byte more than two images have, so that longer input is noticed.
    let mut room = [0u8; 2 * Image::MOST_BYTES + 1];
    let input = streams::read_input(&mut rt.stdin(), &mut room);
    let mut text = [0u8; TEXT];
    let sent = align_report::answer(&room, input, &mut text);
    streams::write_output(sent, &text, b"align: the answer cannot be written\n");
}
