// Runs what `align` does on many inputs with one list slice, and prints a heading and the text for each. The slice holds other things
// at first, and then what the inputs before have left. Standard input has for each a line feed, a heading, a colon, and the bytes in
// hexadecimal with a space between them. A heading that begins with 0, 1 or 2 is given so many bytes of list, any other 32,768. Where it
// begins with a hash, the first eight bytes are the number that names the allowed vectors, as for `align_allowed`; else all are allowed.
// Of a text of more than 4,096 bytes the first lines are printed, and a line with how many bytes it has and a sum of them all.
#![tactic(auto)]

mod lines;

// The most steps, bytes of text, bytes of an input and bytes of all lines.
const STEPS: usize = 32768;

const TEXT: usize = 400 + 12 * STEPS;

const INPUT: usize = 3000;

const LINES: usize = 65536;

// The most bytes of a text that is printed whole, and how many a longer one shows at least.
const WHOLE: usize = 4096;

const SHOWN: usize = 100;

// Room for an input, its list and its text, which each input leaves to the next as it is.
#[derive(Clone, Copy)]
struct Room {
    input: [u8; INPUT],
    list: [u8; STEPS],
    text: [u8; TEXT],
}

fn main() {
    let mut all = [0u8; LINES];
    let n = io::read_full(0, &mut all);
    let mut room = Room {
        input: [9; INPUT],
        list: [9; STEPS],
        text: [9; TEXT],
    };
    for line in all[..n].chunk_by(|_, next| *next != b'\n') {
        show(line, &mut room);
    }
}

// Prints the heading and the text of one line.
fn show(line: &[u8], room: &mut Room) {
    let Room { input, list, text } = room;
    let list: &mut [u8] = list;
    let colon = line.iter().position(|c| *c == b':').unwrap_or(line.len());
    let (heading, digits) = line.split_at(colon);
    io::write_all(1, heading);
    io::write_all(1, b"\n");
    let n = lines::decode(digits, input);
    let bytes = lines::list_bytes(line, STEPS);
    let (named, images) = lines::panel(line, &input[..n]);
    let length = align_report::write_report(images, named, &mut list[..bytes], text);
    print_text(&text[..length]);
}

// Prints a text, or of a long one its first lines and what tells it from others.
fn print_text(text: &[u8]) {
    if text.len() <= WHOLE {
        io::write_all(1, text);
        return;
    }
    let (front, rest) = text.split_at(SHOWN);
    io::write_all(1, front);
    io::write_all(1, rest.split(|c| *c == b'\n').next().unwrap_or(rest));
    io::write_all(1, b"\nAND SO ON, BYTES ");
    io::print_decimal(1, text.len() as u64);
    io::write_all(1, b" SUM ");
    io::print_decimal(1, sum(text));
    io::write_all(1, b"\n");
}

// The highest prime below 2 to the 32.
const PRIME: u64 = 4294967291;

// A sum that two texts hardly share: a byte counts by where it stands, so that swapped lines show.
fn sum(text: &[u8]) -> u64 {
    text.iter().fold(0, |sum, byte| (sum % PRIME * 31 + u64::from(*byte)) % PRIME)
}
