// A line's parts, taken one by one: words, numbers and hex.
ghost use Rattle.std.specs.Prelude.{◌≤◌, ◌<◌, length, IfSome};

// What of a line is not taken yet; nothing behind the last part.
#[derive(Clone, Copy)]
pub struct Parts<'a> {
    rest: Option<&'a [u8]>,
}

// A part that is hex: an even number of digits, none where it is -.
#[derive(Clone, Copy)]
pub struct Digits<'a> {
    digits: &'a [u8],
}

// A digit's value, hex too.
fn digit(c: u8) -> Option<u8>
    ensures { IfSome result (λ d. d < 16) }
{
    match c {
        b'0'..=b'9' => Some(c - b'0'),
        b'a'..=b'f' => Some(c - b'a' + 10),
        _ => None,
    }
}

// A number and one decimal digit more, within 32 bits.
fn added(n: u32, c: u8) -> Option<u32> {
    let d = digit(c)?;
    if d > 9 {
        return None;
    }
    n.checked_mul(10)?.checked_add(u32::from(d))
}

// The decimal number that a part says without leading zeros, if it is at most `most`.
pub fn number(p: &[u8], most: u32) -> Option<u32>
    ensures { IfSome result (λ n. n ≤ most) }
{
    if p.is_empty() || (p.len() > 1 && p[0] == b'0') {
        return None;
    }
    let mut n = 0;
    for c in p {
        n = added(n, *c)?;
    }
    if n <= most { Some(n) } else { None }
}

// The byte of two hex digits.
fn pair(high: u8, low: u8) -> Option<u8> {
    Some(digit(high)? * 16 + digit(low)?)
}

// The word of four hex digits.
pub fn word(p: &[u8]) -> Option<u16> {
    let [a, b, c, d] = p else {
        return None;
    };
    Some(u16::from_be_bytes([pair(*a, *b)?, pair(*c, *d)?]))
}

// A part as hex.
pub fn hex(p: &[u8]) -> Option<Digits<'_>> {
    if p == b"-".as_slice() {
        return Some(Digits { digits: &[] });
    }
    if p.is_empty() || p.len() % 2 == 1 || !p.iter().all(|c| digit(*c).is_some()) {
        return None;
    }
    Some(Digits { digits: p })
}

impl Digits<'_> {
    // How many bytes there are.
    pub fn len(&self) -> usize {
        self.digits.len() / 2
    }

    // The bytes, as far as there is room, and how many these are; every digit is one of hex.
    pub fn read(&self, room: &mut [u8]) -> usize
        ensures { result ≤ length room.new }
    {
        let n = self.len().min(room.len());
        for (slot, two) in room.iter_mut().zip(self.digits.chunks_exact(2)) {
            *slot = pair(two[0], two[1]).unwrap_or(0);
        }
        n
    }
}

impl<'a> Parts<'a> {
    pub fn of(line: &'a [u8]) -> Parts<'a> {
        Parts { rest: Some(line) }
    }

    // The next part, to a space or the line's end.
    pub fn next(&mut self) -> Option<&'a [u8]> {
        let rest = self.rest?;
        match rest.iter().position(|c| *c == b' ') {
            Some(n) => {
                self.rest = Some(&rest[n + 1..]);
                Some(&rest[..n])
            }
            None => {
                self.rest = None;
                Some(rest)
            }
        }
    }

    // The next part as a number of at most `most`.
    pub fn number(&mut self, most: u32) -> Option<u32>
        ensures { IfSome result (λ n. n ≤ most) }
    {
        number(self.next()?, most)
    }

    // The same, as a number of bytes, bits, words or stores.
    pub fn size(&mut self, most: u32) -> Option<usize>
        ensures { IfSome result (λ n. n ≤ most) }
    {
        Some(self.number(most)? as usize)
    }

    pub fn word(&mut self) -> Option<u16> {
        word(self.next()?)
    }

    pub fn hex(&mut self) -> Option<Digits<'a>> {
        hex(self.next()?)
    }

    // What is not taken yet, if any part is left.
    pub fn rest(&self) -> Option<&'a [u8]> {
        self.rest
    }

    // That no part is left.
    pub fn end(&self) -> Option<()> {
        if self.rest.is_some() {
            return None;
        }
        Some(())
    }
}
