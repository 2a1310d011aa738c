// Lines of numbers: digits, one space between, a line feed behind.
//
// A text is scanned from the front. Numbers of any length are read; from CAP on they are not told apart, since every limit is lower.
#![tactic(auto)]

ghost use Rattle.std.specs.Prelude.{◌<◌, ◌≤◌, length};
ghost use Rattle.lines.specs.Working.Scanning.{cap, NumberAt, FieldAt};
ghost use Rattle.lines.specs.Working.Rows.{SmallAt, RowAt};

const CAP: u16 = 1024;

// How many numbers a line has, these numbers, 0 for those that it does not have, and the place behind it.
#[derive(Clone, Copy)]
pub struct Row {
    pub count: usize,
    pub numbers: [u16; 3],
    pub end: usize,
}

// The line of one to three numbers up to `most` at a place, if there is one.
pub fn scan(text: &[u8], at: usize, most: u16) -> Option<Row>
    requires { (at ≤ length text.now) × (most < cap) }
    ensures { RowAt most text.now at result }
{
    let mut numbers = [0u16; 3];
    let mut end = at;
    for k in 0..3usize {
        let n = take_up_to(text, end, most)?;
        numbers[k] = n.value;
        end = n.end;
        if n.stop == b'\n' {
            return Some(Row {
                count: k + 1,
                numbers,
                end,
            });
        }
    }
    None
}

// The same as `take` of a number up to `most`.
fn take_up_to(text: &[u8], at: usize, most: u16) -> Option<Taken>
    requires { (at ≤ length text.now) × (most < cap) }
    ensures { SmallAt most text.now at result }
{
    let n = take(text, at)?;
    if n.value > most {
        return None;
    }
    Some(n)
}

// A number, the byte behind it, and the place behind that byte.
#[derive(Clone, Copy)]
pub struct Taken {
    pub value: u16,
    pub stop: u8,
    pub end: usize,
}

// The number at a place with the space or line feed behind it, if there is one.
pub fn take(text: &[u8], at: usize) -> Option<Taken>
    requires { at ≤ length text.now }
    ensures { FieldAt text.now at result }
{
    let n = digits(text, at);
    if n.end == at || n.end == text.len() {
        return None;
    }
    if text[at] == b'0' && n.end > at + 1 {
        return None;
    }
    let stop = text[n.end];
    if stop != b'\n' && stop != b' ' {
        return None;
    }
    Some(Taken {
        value: n.value,
        stop,
        end: n.end + 1,
    })
}

#[derive(Clone, Copy)]
struct Run {
    value: u16,
    end: usize,
}

// The number that the digits from a place on spell, and where they end.
fn digits(text: &[u8], at: usize) -> Run
    requires { at ≤ length text.now }
    ensures { NumberAt text.now at result.value result.end }
{
    let mut value: u16 = 0;
    for i in at..text.len() {
        let c = text[i];
        if !c.is_ascii_digit() {
            return Run { value, end: i };
        }
        if value < CAP {
            value = value * 10 + u16::from(c - b'0');
        }
    }
    Run {
        value,
        end: text.len(),
    }
}
