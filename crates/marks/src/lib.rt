// The states that one design may be in, as marks, and where a list of vectors moves them.
#![tactic(auto)]

ghost use Rattle.std.specs.Prelude.{ℕ, ◌+◌, ◌*◌, ◌<◌, length, get_or};
ghost use Rattle.machine.specs.Meaning.Lists.{run};
ghost use Rattle.marks.specs.Working.{next_of, Leading, Successors};

// The states to which the vectors of a list, one after the other, lead from the marked states.
pub fn spread(
    next: &[u8],
    list: &[u8],
    states: usize,
    vectors: usize,
    marks: [bool; 128],
) -> [bool; 128]
    requires leading { Leading states vectors next.now }
    requires by_index { (i : ℕ) → i < length list.now → get_or list.now i 0 < vectors }
    ensures { Successors (λ s. run (next_of vectors next.now) s list.now) states marks result }
{
    let mut current = marks;
    for v in list {
        // a name of its own, since no proof is begun where a call's array is laid in the variable that it was passed from
        let after = successors(next, states, vectors, usize::from(*v), current);
        current = after;
    }
    current
}

// The states to which the vector v leads from the marked states.
fn successors(
    next: &[u8],
    states: usize,
    vectors: usize,
    v: usize,
    marks: [bool; 128],
) -> [bool; 128]
    requires leading { Leading states vectors next.now }
    requires v_lt_vectors { v < vectors }
    ensures { Successors (λ s. get_or next.now (s * vectors + v) 0) states marks result }
{
    let mut out = [false; 128];
    for s in 0..states {
        if marks[s] {
            let i = places::place_of(s, v, states, vectors);
            let q = usize::from(next[i]);
            out[q] = true;
        }
    }
    out
}
