// The words of a question: lists of numbers, with a comma or a slash between two entries, and `*n` behind one that stands n times.
ghost use Rattle.std.specs.Prelude.{◌≤◌, ◌<◌, length, IfSome};

// How many entries a list has, and what of the line stands behind it.
#[derive(Clone, Copy)]
pub(crate) struct Word<'a> {
    pub len: usize,
    pub rest: &'a [u8],
}

// An entry of a list, how often it stands there, and what of the line stands behind it.
#[derive(Clone, Copy)]
struct Entry<'a> {
    value: usize,
    count: usize,
    rest: &'a [u8],
}

// A number, and what of the line stands behind it.
#[derive(Clone, Copy)]
struct Number<'a> {
    value: usize,
    rest: &'a [u8],
}

// Reads a list of bytes, in hexadecimal behind an x, into the front of a slice, unless it is spelled wrong or has no room there. A line
// that has ended has none.
pub(crate) fn bytes<'a>(line: &'a [u8], into: &mut [u8]) -> Option<Word<'a>>
    ensures { IfSome result (λ w. w.len ≤ length into.new) }
{
    match line {
        [] => Some(Word { len: 0, rest: line }),
        [b' ', b'x', spelled @ ..] => list(spelled, true, into),
        [_, spelled @ ..] => list(spelled, false, into),
    }
}

// The same of 16-bit numbers. A line that goes on in hexadecimal has none, too.
pub(crate) fn numbers<'a>(line: &'a [u8], into: &mut [u16]) -> Option<Word<'a>>
    ensures { IfSome result (λ w. w.len ≤ length into.new) }
{
    match line {
        [] | [b' ', b'x', ..] => Some(Word { len: 0, rest: line }),
        [_, spelled @ ..] => list(spelled, false, into),
    }
}

// A list up to a space or the end of the line. Nothing stands before its first entry.
fn list<'a, T: Copy + TryFrom<usize, Error: Drop>>(
    spelled: &'a [u8],
    hex: bool,
    into: &mut [T],
) -> Option<Word<'a>>
    ensures { IfSome result (λ w. w.len ≤ length into.new) }
{
    if matches!(spelled, [b',' | b'/', ..]) {
        return None;
    }
    let mut len = 0;
    let mut rest = spelled;
    // a `while`: each turn goes on by what an entry takes, which only reading it tells
    while !matches!(rest, [] | [b' ', ..]) {
        let entry = entry_at(rest, hex)?;
        let value = T::try_from(entry.value).ok()?;
        let end = entry.count.checked_add(len)?;
        for place in into.get_mut(len..end)? {
            *place = value;
        }
        len = end;
        rest = entry.rest;
    }
    Some(Word { len, rest })
}

// The entry at the front of a text, and before it what stands between two; with the count behind a star.
fn entry_at(text: &[u8], hex: bool) -> Option<Entry<'_>>
    ensures { IfSome result (λ e. length e.rest.now < length text.now) }
{
    let spelled = match text {
        [b',' | b'/', spelled @ ..] => spelled,
        _ => text,
    };
    let number = number_at(spelled, hex)?;
    let value = number.value;
    match number.rest {
        [b'*', times @ ..] => {
            let times = number_at(times, false)?;
            Some(Entry {
                value,
                count: times.value,
                rest: times.rest,
            })
        }
        rest => Some(Entry {
            value,
            count: 1,
            rest,
        }),
    }
}

// The number at the front of a text: a byte of two hexadecimal digits, or decimal digits.
fn number_at(text: &[u8], hex: bool) -> Option<Number<'_>>
    ensures { IfSome result (λ n. length n.rest.now < length text.now) }
{
    if hex && text.len() < 2 {
        return None;
    }
    let (base, most) = if hex { (16, 2) } else { (10, text.len()) };
    let digits = text
        .iter()
        .take(most)
        .take_while(|c| char::from(**c).is_digit(base))
        .count();
    if digits == 0 {
        return None;
    }
    let (spelled, rest) = text.split_at_checked(digits)?;
    let value = usize::from_str_radix(str::from_utf8(spelled).ok()?, base).ok()?;
    Some(Number { value, rest })
}
