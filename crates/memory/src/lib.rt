// Slices that a caller lends, and the reasons for which a call is turned away.
#![tactic(auto)]

ghost use Rattle.std.specs.Prelude.{◌≡◌, ◌<◌, min, length};
ghost use Rattle.memory.specs.Meaning.Slices.{Cleared, SameScratch};
ghost use Rattle.memory.specs.Meaning.Orders.{table_order};
ghost use Rattle.memory.specs.Meaning.Refusals.{number_of, BothOf, earlier_number};
ghost use Rattle.memory.specs.Meaning.Tables.{lengths_of, shortest_of, table_in, held_in, SameTable};
ghost use Rattle.memory.specs.Working.Lowest.{place_in};

// Why a call is turned away, by the number that it is known by.
#[derive(Clone, Copy)]
pub enum Refusal {
    FewBytes = 1,
    OtherVersion = 2,
    SizeOver = 3,
    EndsEarly = 4,
    NetOver = 5,
    UnreadNet = 6,
    PadSet = 7,
    BytesLeft = 8,
    Loop = 9,
    OtherInterface = 10,
    SizesOut = 11,
    ShortSlice = 12,
    LeadsOut = 13,
    StateOver = 14,
    NothingSought = 15,
    ShortList = 16,
    Misspelled = 17,
    Undriven = 18,
    NeedlessVersion = 19,
    WrongAllowed = 20,
    OtherWatched = 21,
}

impl Refusal {
    pub fn number(self) -> u8
        ensures { result ≡ number_of self }
    {
        self as u8
    }
}

// The three table slices of a design, to be read: an entry for each state under each vector.
#[derive(Clone, Copy)]
pub struct TableRef<'a> {
    pub next: &'a [u8],
    pub out: &'a [u8],
    pub seen: &'a [u8],
}

impl TableRef<'_> {
    // How many entries the shortest has.
    pub fn room(&self) -> usize
        ensures { result ≡ shortest_of (lengths_of (table_in self.now)) }
    {
        self.next.len().min(self.out.len().min(self.seen.len()))
    }
}

// The same, to be written.
#[derive(Drop)]
pub struct TableMut<'a> {
    pub next: &'a mut [u8],
    pub out: &'a mut [u8],
    pub seen: &'a mut [u8],
}

impl TableMut<'_> {
    // How many entries the shortest has.
    pub fn room(&self) -> usize
        ensures { result ≡ shortest_of (lengths_of (held_in self.now)) }
    {
        self.as_ref().room()
    }

    // All become 0 throughout.
    pub fn clear(&mut self)
        ensures next { Cleared (length self.old.next.now) self.new.next.now }
        ensures out { Cleared (length self.old.out.now) self.new.out.now }
        ensures seen { Cleared (length self.old.seen.now) self.new.seen.now }
        ensures same_slices { SameTable self.old self.new }
    {
        self.next.fill(0);
        self.out.fill(0);
        self.seen.fill(0);
    }

    pub fn as_ref(&self) -> TableRef<'_>
        ensures { table_in result ≡ held_in self.now }
    {
        TableRef {
            next: self.next,
            out: self.out,
            seen: self.seen,
        }
    }
}

// The two scratch slices, with an entry for each pair of states.
#[derive(Drop)]
pub struct Scratch<'a> {
    pub depth: &'a mut [u8],
    pub reach: &'a mut [u16],
}

impl Scratch<'_> {
    // How many entries the shorter has.
    pub fn room(&self) -> usize
        ensures { result ≡ min (length self.now.depth.now) (length self.now.reach.now) }
    {
        self.depth.len().min(self.reach.len())
    }

    // Both become 0 throughout.
    pub fn clear(&mut self)
        ensures depth { Cleared (length self.old.depth.now) self.new.depth.now }
        ensures reach { Cleared (length self.old.reach.now) self.new.reach.now }
        ensures same_slices { SameScratch self.old self.new }
    {
        self.depth.fill(0);
        self.reach.fill(0);
    }
}

// The answers of two calls, or of their refusals the one that comes first in the order.
#[tactic(auto, using(crate::proofs::Checked::earlier_refusal))]
pub fn both<A: Copy, B: Copy>(
    one: Result<A, Refusal>,
    other: Result<B, Refusal>,
) -> Result<(A, B), Refusal>
    ensures { BothOf one other result }
{
    match (one, other) {
        (Ok(a), Ok(b)) => Ok((a, b)),
        (Ok(_), Err(r)) | (Err(r), Ok(_)) => Err(r),
        (Err(r), Err(t)) => if earlier_number(r.number(), t.number()) == r.number() {
            Err(r)
        } else {
            Err(t)
        },
    }
}

// Of two numbers of refusals, of which 0 is none, the one that comes first in the order.
// Plain numbers, for the crate `trial` asks this of numbers that are no refusal's too.
#[tactic(auto, using(crate::proofs::Places::earlier_number_is))]
pub fn earlier_number(a: u8, b: u8) -> u8
    ensures { result ≡ earlier_number a b }
{
    match (a, b) {
        (0, _) => b,
        (_, 0) => a,
        _ => if place(b) < place(a) { b } else { a },
    }
}

// Where a number stands in the order of refusals: 19 comes between 9 and 10, 21 between 10 and 11, 20 between 14 and 15, and a number
// without a place behind all that have one.
#[tactic(auto, using(crate::proofs::Places::place_is))]
fn place(number: u8) -> usize
    requires { 0 < number }
    ensures { result ≡ place_in table_order number }
{
    let n = usize::from(number);
    match number {
        1..=9 => n - 1,
        19 => 9,
        10 => 10,
        21 => 11,
        11..=14 => n + 1,
        20 => 16,
        15..=16 => n + 2,
        _ => 19 + n,
    }
}
