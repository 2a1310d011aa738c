// The calls that are compared. Each lends two scratch slices that are longer than need be and hold other things at first.
use crate::tables::Machines;
use engine::AlikeCount;
use machine::Pair;
use memory::{Refusal, Scratch};
use verdict::{Judged, Verdict};

// More entries than the largest pair of machines needs.
const SCRATCH: usize = 17;

// What is asked, and of which pair.
#[derive(Clone, Copy)]
pub(crate) enum Question {
    MapAlike,
    MapAlignable,
    Trace(Pair),
    List(Pair),
    Verdict,
}

// What is answered: the number of a refusal; the steps; the round; the counts of alike and of alignable pairs; the two states that are
// apart; and how many entries of scratch are not zero behind it. What an answer does not have is 0 or none.
#[derive(Clone, Copy, Default, PartialEq)]
pub(crate) struct Answer {
    pub(crate) refused: Option<u8>,
    pub(crate) steps: usize,
    pub(crate) round: usize,
    pub(crate) alike: usize,
    pub(crate) alignable: usize,
    pub(crate) apart: Option<(usize, usize)>,
    pub(crate) dirty: usize,
}

impl Answer {
    pub(crate) fn refused(number: u8) -> Answer {
        Answer {
            refused: Some(number),
            ..Answer::default()
        }
    }

    fn of_alike(marked: AlikeCount) -> Answer {
        Answer {
            alike: marked.count,
            round: marked.round,
            ..Answer::default()
        }
    }

    fn of_alignable(count: usize) -> Answer {
        Answer {
            alignable: count,
            ..Answer::default()
        }
    }

    pub(crate) fn of_steps(steps: usize) -> Answer {
        Answer {
            steps,
            ..Answer::default()
        }
    }

    fn of_verdict(verdict: Verdict) -> Answer {
        match verdict {
            Verdict::Same(steps) => Answer::of_steps(steps),
            Verdict::Apart(pair, steps) => Answer {
                apart: Some((pair.old, pair.new)),
                ..Answer::of_steps(steps)
            },
        }
    }

    fn of_judged(judged: Judged) -> Answer {
        Answer {
            alike: judged.alike,
            alignable: judged.alignable,
            ..told(judged.verdict, Answer::of_verdict)
        }
    }
}

// Asks, and lends a mark slice for a map and else a list slice.
pub(crate) fn ask(m: &Machines, question: Question, lent: &mut [u8]) -> Answer {
    let tables = m.lend();
    let mut depth = [9u8; SCRATCH];
    let mut reach = [9u16; SCRATCH];
    let mut scratch = Scratch {
        depth: &mut depth,
        reach: &mut reach,
    };
    let s = &mut scratch;
    let answer = match question {
        Question::MapAlike => told(engine::map_alike(&tables, s, lent), Answer::of_alike),
        Question::MapAlignable => told(
            engine::map_alignable(&tables, s, lent),
            Answer::of_alignable,
        ),
        Question::Trace(pair) => told(engine::trace_of(&tables, pair, s, lent), Answer::of_steps),
        Question::List(pair) => told(engine::list_of(&tables, pair, s, lent), Answer::of_steps),
        Question::Verdict => Answer::of_judged(verdict::judge(&tables, s, lent)),
    };
    let dirty = set(scratch.depth).wrapping_add(set(scratch.reach));
    Answer { dirty, ..answer }
}

// What a call tells, or the refusal.
fn told<T, F: FnOnce(T) -> Answer>(answer: Result<T, Refusal>, accepted: F) -> Answer
    requires { F.IsAlwaysCallable accepted }
{
    match answer {
        Ok(value) => accepted(value),
        Err(reason) => Answer::refused(reason.number()),
    }
}

// How many entries are not zero.
fn set<T: Copy + Default + PartialEq>(slice: &[T]) -> usize {
    slice.iter().filter(|entry| **entry != T::default()).count()
}
