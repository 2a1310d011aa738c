// A question: what it asks, and of what.
use crate::calls::Call;
use crate::given::Numbers;
use crate::{designs, given, words};
use netlist::Design;

// The call, if there is one of the name, and what it takes: the empty design, no numbers and no bytes where it takes none.
#[derive(Clone, Copy)]
pub(crate) struct Question<'a> {
    pub call: Option<Call>,
    pub old: Design,
    pub new: Design,
    pub numbers: Numbers,
    pub bytes: &'a [u8],
}

// Reads the words of a question, unless a word is missing, spelled wrong, too long or one too many.
pub(crate) fn question_of<'a>(line: &[u8], bytes: &'a mut [u8]) -> Option<Question<'a>> {
    let end = line.iter().position(|c| *c == b' ').unwrap_or(line.len());
    let (name, rest) = line.split_at_checked(end)?;
    let call = Call::named(name);
    let old = designs::drawn_at(rest, call.is_some_and(|call| call.takes_old()))?;
    let new = designs::drawn_at(old.rest, call.is_some_and(|call| call.takes_new()))?;
    let mut list = [0u16; given::MOST];
    let numbers = words::numbers(new.rest, &mut list)?;
    let last = words::bytes(numbers.rest, bytes)?;
    let taken = call.is_none_or(|call| call.takes(numbers.len, last.len));
    if !last.rest.is_empty() || !taken {
        return None;
    }
    Some(Question {
        call,
        old: old.design,
        new: new.design,
        numbers: Numbers {
            list,
            given: numbers.len,
        },
        bytes: &bytes[..last.len],
    })
}
