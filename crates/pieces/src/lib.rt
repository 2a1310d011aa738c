// The pieces of a text: words and numbers. Each is written behind what the text has so far.
#![tactic(auto)]

ghost use Rattle.std.specs.Prelude.{◌+◌, ◌≤◌, ◌≡◌, ◌++◌, length};
ghost use Rattle.pieces.specs.Meaning.Pieces.{spelled, newline, Printed};
ghost use Rattle.pieces.specs.Working.Put.{Put};

// A text in lent bytes: those in front of `end` are written.
#[derive(Drop)]
pub struct Text<'a> {
    pub bytes: &'a mut [u8],
    pub end: usize,
}

impl<'a> Text<'a> {
    // A text of no bytes so far.
    pub fn new(bytes: &'a mut [u8]) -> Text<'a>
        ensures empty { result.end ≡ 0 }
        ensures lent { result.bytes.now ≡ bytes.old }
        ensures place { result.bytes.ghost_name ≡ bytes.entry.ghost_name }
    {
        Text { bytes, end: 0 }
    }
}

impl Text<'_> {
    // A word.
    pub fn put_word(&mut self, word: &[u8])
        requires { self.old.end + length word.now ≤ length self.old.bytes.now }
        ensures { Put (length word.now) word.now self.old self.new }
    {
        let from = self.end;
        self.end = from + word.len();
        self.bytes[from..self.end].copy_from_slice(word);
    }

    // A number, of at most 20 digits.
    pub fn put_number(&mut self, n: usize)
        requires { self.old.end + 20 ≤ length self.old.bytes.now }
        ensures { Put 20 (spelled n) self.old self.new }
    {
        let mut digits = [0u8; 20];
        let count = io::decimal(n as u64, &mut digits);
        self.put_word(&digits[..count]);
    }

    // A number behind a word.
    pub fn put_field(&mut self, word: &[u8], n: usize)
        requires { self.old.end + (length word.now + 20) ≤ length self.old.bytes.now }
        ensures { Put (length word.now + 20) (word.now ++ spelled n) self.old self.new }
    {
        self.put_word(word);
        self.put_number(n);
    }

    // A number behind a word, at the end of a line.
    pub fn put_last_field(&mut self, word: &[u8], n: usize)
        requires { self.old.end + (length word.now + 21) ≤ length self.old.bytes.now }
        ensures { Put (length word.now + 21) (word.now ++ spelled n ++ newline) self.old self.new }
    {
        self.put_field(word, n);
        self.put_word(b"\n");
    }
}

// A text of these words alone: how many bytes it has.
pub fn put_message(words: &[u8], bytes: &mut [u8]) -> usize
    requires { length words.now ≤ length bytes.old }
    ensures { Printed words.now bytes.new result }
{
    let mut text = Text::new(bytes);
    text.put_word(words);
    text.end
}

// A text of one line, a number behind a word: how many bytes it has.
pub fn put_line(word: &[u8], n: usize, bytes: &mut [u8]) -> usize
    requires { length word.now + 21 ≤ length bytes.old }
    ensures { Printed (word.now ++ spelled n ++ newline) bytes.new result }
{
    let mut text = Text::new(bytes);
    text.put_last_field(word, n);
    text.end
}
