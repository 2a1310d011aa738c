// What a line says: how long a list it is given, which vectors are allowed, and the bytes of an input.
ghost use Rattle.std.specs.Prelude.{◌≤◌, length};

// The bytes of the number that names the allowed vectors.
const NUMBER: usize = 8;

// How many bytes of list a line is given, of the most that there are.
pub(crate) fn list_bytes(line: &[u8], most: usize) -> usize
    ensures { result ≤ most }
{
    match line.get(1) {
        Some(b'0') => 0,
        Some(b'1') => most.min(1),
        Some(b'2') => most.min(2),
        _ => most,
    }
}

// The number that names the allowed vectors, if the heading of a line begins with a hash; and what stands behind it in the bytes of the line.
pub(crate) fn panel<'a>(line: &[u8], bytes: &'a [u8]) -> (Option<u64>, &'a [u8]) {
    if line.get(1) != Some(&b'#') {
        return (None, bytes);
    }
    let (number, images) = bytes.split_at(bytes.len().min(NUMBER));
    let named = number
        .iter()
        .fold(0, |number, byte| number << 8 | u64::from(*byte));
    (Some(named), images)
}

// Writes the bytes that stand behind a colon or space each, as far as there is room, and hands back how many.
pub(crate) fn decode(digits: &[u8], input: &mut [u8]) -> usize
    ensures { result ≤ length input.new }
{
    let spelled = digits.as_chunks::<3>().0;
    for (byte, [_, high, low]) in input.iter_mut().zip(spelled) {
        *byte = digit(*high) * 16 + digit(*low);
    }
    input.len().min(spelled.len())
}

// The value of a hexadecimal digit, 0 of any other byte. By hand: `to_digit` takes small letters too, which are 0 here.
fn digit(c: u8) -> u8
    ensures { result ≤ 15 }
{
    match c {
        b'0'..=b'9' => c - b'0',
        b'A'..=b'F' => c - b'A' + 10,
        _ => 0,
    }
}
