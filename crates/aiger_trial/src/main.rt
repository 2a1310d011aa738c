// Reads drawings in ASCII AIGER, and prints for each its name, then what `aiger` reads, then what `convert` writes and to which stream,
// then an empty line. A design is shown by its image in hexadecimal, also the one beside a refusal. Standard input has a question a
// line: a name, a colon, and the text of the drawing, in which \n, \t, \r, \\ and \xHH stand for bytes, and \z for as many zero bytes
// as make the text a mebibyte long. Behind each text stand leftovers of those before.
#![tactic(auto)]

mod escapes;

ghost use Rattle.std.specs.Prelude.{◌≤◌, length};

use converter::Text;
use limits::Image;
use netlist::Design;

// The most bytes of all questions.
const QUESTIONS: usize = 200000;

// The room of `convert`: a byte more than the longest text that is read whole.
const ROOM: usize = Text::MOST_BYTES + 1;

fn main() {
    let mut all = [0u8; QUESTIONS];
    let n = io::read_full(0, &mut all);
    let mut room = Text::room();
    for line in all[..n].split_inclusive(|c| *c == b'\n') {
        ask(line.strip_suffix(b"\n").unwrap_or(line), &mut room);
    }
}

// Prints the name and the answers of one line.
fn ask(line: &[u8], room: &mut [u8; ROOM]) {
    let colon = line.iter().position(|c| *c == b':').unwrap_or(line.len());
    let (name, spelled) = line.split_at(colon);
    io::write_all(1, name);
    io::write_all(1, b"\n");
    match escapes::decode(spelled, room) {
        None => {
            io::write_all(
                1,
                b"NO QUESTION: a line is NAME:TEXT, at most 1,048,577 bytes, a backslash only in \\n \\t \\r \\\\ \\xHH, and \\z below 1,048,576\n\n",
            );
        }
        Some(n) => {
            show_reading(&room[..n]);
            show_output(room, n);
            io::write_all(1, b"\n");
        }
    }
}

// Prints what is read of a text: the design, and before it the number of a refusal.
fn show_reading(text: &[u8]) {
    let reading = aiger::read(text);
    let answer = reading.answer;
    if let Err(reason) = answer {
        io::write_all(1, b"REFUSED ");
        io::print_decimal(1, u64::from(reason.number()));
        io::write_all(1, b" BESIDE ");
    }
    show(reading.design);
    io::write_all(1, b"\n");
}

// Prints what `convert` writes of the first n bytes, and where: an image in hexadecimal, or a line as it is.
fn show_output(room: &[u8; ROOM], n: usize)
    requires { n ≤ length room.now }
{
    let mut out = [165u8; Image::MOST_BYTES];
    let sent = converter::answer(room, Some(n), &mut out);
    let output = &out[..sent.length];
    io::print_decimal(1, sent.stream as u64);
    io::write_all(1, b" ");
    if out[0] / 16 == 1 {
        show_bytes(output);
        io::write_all(1, b"\n");
    } else {
        io::write_all(1, output);
    }
}

// Prints the image of a design, written into a slice that held other things.
fn show(d: Design) {
    let mut image = [165u8; Image::MOST_BYTES];
    match writer::write(d, &mut image) {
        Ok(n) => show_bytes(image.get(..n).unwrap_or(&image)),
        Err(reason) => {
            io::write_all(1, b"THE WRITER REFUSED ");
            io::print_decimal(1, u64::from(reason.number()));
        }
    }
}

// Prints bytes in hexadecimal, with a space between.
fn show_bytes(bytes: &[u8]) {
    for (i, byte) in bytes.iter().enumerate() {
        if i > 0 {
            io::write_all(1, b" ");
        }
        show_byte(*byte);
    }
}

// By hand: io::print_hex writes small letters, and the stored output has capital ones.
fn show_byte(b: u8) {
    let digits = b"0123456789ABCDEF";
    io::write_all(
        1,
        &[digits[usize::from(b / 16)], digits[usize::from(b % 16)]],
    );
}
