// The bytes that a text with escapes spells.
ghost use Rattle.std.specs.Prelude.{◌≡◌, ◌<◌, ◌≤◌, length, IfSome};

use converter::Text;

// A byte that a text is filled with up to an end, and what spells the bytes behind it.
#[derive(Clone, Copy)]
struct Spelled<'a> {
    byte: u8,
    end: usize,
    rest: &'a [u8],
}

// Writes the bytes that are spelled behind a colon, as long as they are spelled by the rules and have room: how many they are.
pub(crate) fn decode(spelled: &[u8], text: &mut [u8]) -> Option<usize>
    ensures { IfSome result (λ n. n ≤ length text.new) }
{
    let (_, mut rest) = spelled.split_first()?;
    let mut n = 0;
    // a `while`: each turn goes on by what an escape takes, which only reading it tells
    while !rest.is_empty() {
        let next = next_of(rest, n)?;
        text.get_mut(n..next.end)?.fill(next.byte);
        n = next.end;
        rest = next.rest;
    }
    Some(n)
}

// What is spelled next, of a text that has n bytes so far.
fn next_of(spelled: &[u8], n: usize) -> Option<Spelled<'_>>
    ensures { IfSome result (λ s. length s.rest.now < length spelled.now) }
{
    let (byte, rest) = match spelled {
        [b'\\', b'n', rest @ ..] => (b'\n', rest),
        [b'\\', b't', rest @ ..] => (b'\t', rest),
        [b'\\', b'r', rest @ ..] => (b'\r', rest),
        [b'\\', b'\\', rest @ ..] => (b'\\', rest),
        [b'\\', b'x', high, low, rest @ ..] => (digit(*high)? * 16 + digit(*low)?, rest),
        [b'\\', b'z', rest @ ..] => return zeros(n, rest),
        [b'\\', ..] | [] => return None,
        [byte, rest @ ..] => (*byte, rest),
    };
    let end = n.checked_add(1)?;
    Some(Spelled { byte, end, rest })
}

// As many zero bytes as make a text of n bytes a mebibyte long; a text that is so long has none.
fn zeros(n: usize, rest: &[u8]) -> Option<Spelled<'_>>
    ensures { IfSome result (λ s. s.rest.now ≡ rest.now) }
{
    if n >= Text::MOST_BYTES {
        return None;
    }
    Some(Spelled {
        byte: 0,
        end: Text::MOST_BYTES,
        rest,
    })
}

// The value of a hexadecimal digit. By hand: `to_digit` takes small letters too, which spell nothing here.
fn digit(c: u8) -> Option<u8>
    ensures { IfSome result (λ d. d ≤ 15) }
{
    match c {
        b'0'..=b'9' => Some(c - b'0'),
        b'A'..=b'F' => Some(c - b'A' + 10),
        _ => None,
    }
}
