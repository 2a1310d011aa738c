// Compares what the calls answer, and what they leave in every lent slice, with what the checker found. A slice that is lent for a list has
// room to spare, or just fits it, or is a byte short.
use crate::ask::{Answer, Question, ask};
use crate::checker::{Answers, answer, many};
use crate::lists::{STEPS, Set, Walk, has};
use crate::show;
use crate::tables::{Machines, pair_at};
use crate::tally::Tally;

// The bytes of the longest slice that is lent: more than marks or the longest list need.
pub(crate) const ROOM: usize = STEPS;

// How many disagreements are printed.
const PRINTED: usize = 5;

// An answer, and the bytes that it leaves in a slice.
#[derive(Clone, Copy)]
pub(crate) struct Told {
    pub(crate) answer: Answer,
    pub(crate) bytes: [u8; ROOM],
}

// Compares everything for two machines.
pub(crate) fn compare(m: &Machines, tally: &mut Tally) {
    let known = answer(m);
    tally.count(&known);
    compare_maps(m, &known, tally);
    for p in 0..known.joined.pairs {
        compare_pair(m, &known, p, tally);
    }
    compare_verdict(m, &known, tally);
}

// The maps of alike and of alignable pairs.
fn compare_maps(m: &Machines, known: &Answers, tally: &mut Tally) {
    let alike = Told {
        answer: Answer {
            alike: many(known.alike),
            round: known.traces.quiet_round(),
            ..Answer::default()
        },
        bytes: marks(known.alike),
    };
    compare_lent(m, Question::MapAlike, &alike, ROOM, tally);
    let alignable = Told {
        answer: Answer {
            alignable: many(known.lists.found),
            ..Answer::default()
        },
        bytes: marks(known.lists.found),
    };
    compare_lent(m, Question::MapAlignable, &alignable, ROOM, tally);
}

// A byte for each pair, 1 for those of a set.
fn marks(set: Set) -> [u8; ROOM] {
    let mut bytes = [0u8; ROOM];
    for (pair, byte) in bytes.iter_mut().take(16).enumerate() {
        *byte = u8::from(has(set, pair));
    }
    bytes
}

// The trace and the list of a pair.
fn compare_pair(m: &Machines, known: &Answers, p: usize, tally: &mut Tally) {
    let pair = pair_at(m.sizes, p);
    for (question, lists) in [
        (Question::Trace(pair), &known.traces),
        (Question::List(pair), &known.lists),
    ] {
        let mut walk = Walk::start(0);
        walk.pick(&known.joined, lists, p);
        let wanted = lists.shortest(p).map(|steps| Told {
            answer: Answer::of_steps(steps),
            bytes: walk.list,
        });
        compare_rooms(m, question, wanted, tally);
    }
}

// The verdict and its counts.
fn compare_verdict(m: &Machines, known: &Answers, tally: &mut Tally) {
    let apart = known.apart.map(|p| pair_at(m.sizes, p));
    let wanted = known.judged.map(|walk| {
        let answer = Answer {
            steps: walk.steps,
            alike: many(known.alike),
            alignable: many(known.lists.found),
            apart: apart.map(|pair| (pair.old, pair.new)),
            ..Answer::default()
        };
        let bytes = walk.list;
        Told { answer, bytes }
    });
    compare_rooms(m, Question::Verdict, wanted, tally);
}

// A list with room to spare, in a slice that it just fits, and in one a byte short; or that there is none.
fn compare_rooms(m: &Machines, question: Question, wanted: Option<Told>, tally: &mut Tally) {
    let Some(wanted) = wanted else {
        compare_lent(m, question, &refused(15), ROOM, tally);
        return;
    };
    let steps = wanted.answer.steps;
    compare_lent(m, question, &wanted, ROOM, tally);
    compare_lent(m, question, &wanted, steps, tally);
    if steps > 0 {
        compare_lent(m, question, &refused(16), steps - 1, tally);
    }
}

// A refusal, beside which the slice is cleared. By its number and not as a `Refusal`, so that a wrong number of a refusal shows.
fn refused(number: u8) -> Told {
    Told {
        answer: Answer::refused(number),
        bytes: [0; ROOM],
    }
}

// The answer, and the bytes that it leaves in a slice of so many, if there are so many.
fn compare_lent(m: &Machines, question: Question, wanted: &Told, room: usize, tally: &mut Tally) {
    if room > ROOM {
        return;
    }
    let mut bytes = [5u8; ROOM];
    let answer = ask(m, question, &mut bytes[..room]);
    let wrong = usize::from(wanted.answer != answer)
        + usize::from(wanted.bytes[..room] != bytes[..room]);
    tally.comparisons = tally.comparisons.wrapping_add(2);
    tally.disagreements = tally.disagreements.wrapping_add(wrong);
    if wrong > 0 && tally.disagreements <= PRINTED {
        show::question(m, question, room);
        show::told(b"  EXPECTED", wanted);
        show::told(b"  FOUND   ", &Told { answer, bytes });
    }
}
