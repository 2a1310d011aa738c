// Reads one netlist image, and prints the sizes of its design.
#![tactic(auto)]

use limits::Image;

fn main(rt: HostRuntime) {
    // One byte more than the largest image has, so that bytes left over are noticed.
    let mut room = [0u8; Image::MOST_BYTES + 1];
    let input = streams::read_input(&mut rt.stdin(), &mut room);
    let mut text = [0u8; 120];
    let sent = inspector::answer(&room, input, &mut text);
    streams::write_output(sent, &text, b"inspect: the answer cannot be written\n");
}
