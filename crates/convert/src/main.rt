// Reads a drawing in ASCII AIGER, and writes the image of its design.
#![tactic(auto)]

use converter::Text;
use limits::Image;

fn main(rt: HostRuntime) {
    let mut room = Text::room();
    let input = streams::read_input(&mut rt.stdin(), &mut room);
    let mut out = [0u8; Image::MOST_BYTES];
    let sent = converter::answer(&room, input, &mut out);
    streams::write_output(sent, &out, b"convert: the answer cannot be written\n");
}
