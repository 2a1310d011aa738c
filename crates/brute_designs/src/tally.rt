// How often each number was expected of each kind of comparison.

// What is compared.
#[derive(Clone, Copy)]
pub enum What {
    Fault,
    Tabulate,
    Clock,
    Both,
    Write,
    Spoiled,
    Read,
    Flipped,
    Cut,
}

impl What {
    const ALL: [What; KINDS] = [
        What::Fault,
        What::Tabulate,
        What::Clock,
        What::Both,
        What::Write,
        What::Spoiled,
        What::Read,
        What::Flipped,
        What::Cut,
    ];

    pub fn name(self) -> &'static [u8] {
        match self {
            What::Fault => b"FAULTS OF DESIGNS",
            What::Tabulate => b"DESIGNS TABULATED",
            What::Clock => b"CLOCKS",
            What::Both => b"PAIRS TABULATED",
            What::Write => b"DESIGNS WRITTEN",
            What::Spoiled => b"SPOILED DESIGNS WRITTEN",
            What::Read => b"IMAGES READ",
            What::Flipped => b"IMAGES WITH FLIPPED BITS READ",
            What::Cut => b"IMAGES CUT OR LENGTHENED READ",
        }
    }
}

const KINDS: usize = 9;

// How often a number was expected, and how often of a design or an image in version 2.
#[derive(Clone, Copy, Default)]
struct Count {
    all: usize,
    second: usize,
}

// The numbers of refusals go from 1 to 21; 0 stands for none.
const NUMBERS: usize = 22;

const PLACES: usize = NUMBERS * KINDS;

// A count for each number of each kind of comparison; and the disagreements.
#[derive(Clone, Copy)]
pub struct Tally {
    counts: [Count; PLACES],
    disagreements: usize,
}

impl Tally {
    pub fn new() -> Tally {
        Tally {
            counts: [Count { all: 0, second: 0 }; PLACES],
            disagreements: 0,
        }
    }

    pub fn count(&mut self, what: What, number: Option<u8>, version: usize) {
        let number = usize::from(number.unwrap_or(0)) % NUMBERS;
        if let Some(count) = self.counts.get_mut(NUMBERS * what as usize + number) {
            count.all = count.all.wrapping_add(1);
            count.second = count.second.wrapping_add(usize::from(version == 2));
        }
    }

    // Counts a disagreement, and says whether it is one of the first few.
    pub fn disagree(&mut self) -> bool {
        self.disagreements = self.disagreements.wrapping_add(1);
        self.disagreements <= 5
    }

    // Prints the counts.
    pub fn print(&self) {
        io::write_all(1, b"NUMBER: HOW OFTEN, AND HOW OFTEN IN VERSION 2\n");
        for (what, row) in What::ALL.iter().zip(self.counts.chunks(NUMBERS)) {
            io::write_all(1, what.name());
            for (number, count) in row.iter().enumerate() {
                if count.all != 0 {
                    item(b"\n  ", number);
                    item(b": ", count.all);
                    item(b" ", count.second);
                }
            }
            io::write_all(1, b"\n");
        }
        item(b"DISAGREEMENTS ", self.disagreements);
        io::write_all(1, b"\n");
    }
}

// Prints a word and a number.
pub fn item(word: &[u8], n: usize) {
    io::write_all(1, word);
    io::print_decimal(1, n as u64);
}
