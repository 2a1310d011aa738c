// Standard input as a whole, and which stream an answer goes to. A read or a write that fails is told, so that nothing is answered of half
// an input, and no answer is lost in silence.
#![tactic(auto)]

ghost use Rattle.std.specs.Prelude.{◌≤◌, ◌≡◌, length};
ghost use Rattle.io.specs.Counts.{IsPrefixLen};
ghost use Rattle.pieces.specs.Meaning.Pieces.{Printed};
ghost use Rattle.streams.specs.Meaning.Input.{Within};

use std::io::Read;

// Standard output and standard error, by the numbers that the system knows them by.
pub const STDOUT: u8 = 1;

pub const STDERR: u8 = 2;

// How many bytes are to go out, and to which stream.
#[derive(Clone, Copy)]
pub struct Output {
    pub stream: u8,
    pub length: usize,
}

// Reads an input into a room, until the room is full or the input ends: how many bytes were read, or nothing where a read failed.
pub fn read_input<R: Read>(input: &mut R, room: &mut [u8]) -> Option<usize>
    ensures { Within result room.new }
{
    let mut done = 0;
    // a `while`: each turn goes on by as many bytes as a read gave
    while done < room.len() {
        let more = input.read(&mut room[done..]).ok()?;
        if more == 0 {
            break;
        }
        done += more;
    }
    Some(done)
}

// Puts the words that nothing could be read into a text; they go to standard error.
pub fn put_unread(words: &[u8], text: &mut [u8]) -> Output
    requires { length words.now ≤ length text.old }
    ensures { (result.stream ≡ 2) × (Printed words.now text.new result.length) }
{
    let length = pieces::put_message(words, text);
    Output {
        stream: STDERR,
        length,
    }
}

// Writes the front of a text to its stream, or says in words on standard error that it could not be written.
pub fn write_output(sent: Output, text: &[u8], words: &[u8])
    requires { IsPrefixLen sent.length text.now }
{
    if !io::write_all(sent.stream as i32, &text[..sent.length]) {
        io::write_all(STDERR as i32, words);
    }
}
