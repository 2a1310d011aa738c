// What was compared: counts and greatest numbers.
use crate::checker::{Answers, many};
use crate::lists::Walk;
use crate::show::{item, words};

// Counts of pairs of machines and of pairs of states; of comparisons and of those that disagreed; and the greatest numbers of rounds and steps.
#[derive(Clone, Copy, Default)]
pub(crate) struct Tally {
    machines: usize,
    pairs: usize,
    alike: usize,
    none_alike: usize,
    all_alike: usize,
    last_round: usize,
    alignable: usize,
    traces: usize,
    longest_trace: usize,
    lists: usize,
    longest_list: usize,
    same: usize,
    one_round: usize,
    more_rounds: usize,
    most_rounds: usize,
    longest_same: usize,
    apart: usize,
    some_alignable: usize,
    pub(crate) comparisons: usize,
    pub(crate) disagreements: usize,
}

impl Tally {
    // Counts what the checker found for two machines.
    pub(crate) fn count(&mut self, known: &Answers) {
        let pairs = known.joined.pairs;
        let alike = many(known.alike);
        let alignable = many(known.lists.found);
        let same = known.apart.is_none();
        let walk = known.judged.unwrap_or(Walk::start(0));
        let rounds = walk.rounds;
        *self = Tally {
            machines: self.machines.wrapping_add(1),
            pairs: self.pairs.wrapping_add(pairs),
            alike: self.alike.wrapping_add(alike),
            none_alike: more(self.none_alike, alike == 0),
            all_alike: more(self.all_alike, alike == pairs),
            last_round: self.last_round.max(known.traces.quiet_round()),
            alignable: self.alignable.wrapping_add(alignable),
            traces: self.traces.wrapping_add(pairs.wrapping_sub(alike)),
            longest_trace: self.longest_trace.max(known.traces.longest()),
            lists: self.lists.wrapping_add(alignable.wrapping_sub(alike)),
            longest_list: self.longest_list.max(known.lists.longest()),
            same: more(self.same, same),
            one_round: more(self.one_round, rounds == 1),
            more_rounds: more(self.more_rounds, rounds > 1),
            most_rounds: self.most_rounds.max(rounds),
            longest_same: self.longest_same.max(if same { walk.steps } else { 0 }),
            apart: more(self.apart, !same),
            some_alignable: more(self.some_alignable, !same && alignable > 0),
            ..*self
        };
    }

    // Prints all numbers, one line a kind.
    pub(crate) fn print(&self) {
        item(b"  PAIRS OF MACHINES ", self.machines);
        item(b", PAIRS OF STATES ", self.pairs);
        item(b"\n  ALIKE ", self.alike);
        item(b", PAIRS OF MACHINES WITH NONE ", self.none_alike);
        item(b", WITH ALL ", self.all_alike);
        item(b", LAST ROUND ", self.last_round);
        item(b"\n  ALIGNABLE ", self.alignable);
        item(b"\n  TRACES ", self.traces);
        item(b", LONGEST ", self.longest_trace);
        item(b"\n  LISTS WITH A STEP ", self.lists);
        item(b", LONGEST ", self.longest_list);
        item(b"\n  SAME ", self.same);
        item(b", IN ONE ROUND ", self.one_round);
        item(b", IN MORE ", self.more_rounds);
        item(b", MOST ROUNDS ", self.most_rounds);
        item(b", LONGEST LIST ", self.longest_same);
        item(b"\n  APART ", self.apart);
        item(b", WITH SOME PAIRS ALIGNABLE ", self.some_alignable);
        item(b"\n  COMPARISONS ", self.comparisons);
        item(b", DISAGREEMENTS ", self.disagreements);
        words(b"\n");
    }
}

// A count with one more where something holds.
fn more(count: usize, holds: bool) -> usize {
    count.wrapping_add(usize::from(holds))
}
