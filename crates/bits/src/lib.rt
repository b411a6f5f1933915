// Words, bits and fields of lent bytes, the highest first. Past the end a byte reads 0, and a store there changes nothing.
#![tactic(auto)]

ghost use Rattle.std.specs.Prelude.{◌≡◌, ◌+◌, ◌-◌, ◌*◌, ◌/◌, ◌^◌, ◌≤◌, ◌<◌, length, get_or, set};
ghost use Rattle.bits.specs.Words.{Bytes, word_at, with_word};
ghost use Rattle.bits.specs.Bits.{bit_at, field_at, alike as alike_of};
ghost use Rattle.bits.specs.Steps.{window_at};

// Byte i.
pub fn byte(bytes: &[u8], i: usize) -> u8
    ensures { result ≡ get_or bytes.now i 0 }
{
    bytes.get(i).copied().unwrap_or(0)
}

// Stores b as byte i.
pub fn store_byte(bytes: &mut [u8], i: usize, b: u8)
    ensures { bytes.new ≡ set bytes.old i b }
{
    // By index: what a slice holds after `get_mut` no proof knows.
    if i < bytes.len() {
        bytes[i] = b;
    }
}

// Whatever is lent consists of bytes, and so does every image that a call is handed (RULES D3).
pub fn lent(bytes: &[u8])
    ensures { Bytes bytes.now }
{
    let _first = bytes.first();
}

// Word i of bytes that have it: a sum, here and for windows, since `from_be_bytes` costs an instruction more where words are compared.
pub fn word_in(bytes: &[u8], i: usize) -> u16
    requires { 2 * i + 1 < length bytes.now }
    ensures { result ≡ word_at bytes.now i }
{
    u16::from(bytes[2 * i]) * 256 + u16::from(bytes[2 * i + 1])
}

// Word i; one test does for both bytes where they are there.
pub fn word(bytes: &[u8], i: usize) -> u16
    requires { i < 2 ^ 62 }
    ensures { result ≡ word_at bytes.now i }
{
    if 2 * i + 1 < bytes.len() {
        return word_in(bytes, i);
    }
    u16::from(byte(bytes, 2 * i)) * 256 + u16::from(byte(bytes, 2 * i + 1))
}

// Stores v as word i of bytes that have it.
pub fn store_word_in(bytes: &mut [u8], i: usize, v: u16)
    requires { 2 * i + 1 < length bytes.old }
    ensures { bytes.new ≡ with_word bytes.old i v }
{
    let [high, low] = v.to_be_bytes();
    bytes[2 * i] = high;
    bytes[2 * i + 1] = low;
}

// Stores v as word i.
pub fn store_word(bytes: &mut [u8], i: usize, v: u16)
    requires { i < 2 ^ 62 }
    ensures { bytes.new ≡ with_word bytes.old i v }
{
    if 2 * i + 1 < bytes.len() {
        store_word_in(bytes, i, v);
        return;
    }
    let [high, low] = v.to_be_bytes();
    store_byte(bytes, 2 * i, high);
    store_byte(bytes, 2 * i + 1, low);
}

// Bit i, 0 or 1.
pub fn bit(bytes: &[u8], i: usize) -> u16
    ensures { (result ≡ bit_at bytes.now i) × (result < 2) }
{
    u16::from(byte(bytes, i / 8)) >> (7 - i % 8) & 1
}

// The three bytes from byte k on, as one number.
pub fn window(bytes: &[u8], k: usize) -> u32
    requires { k < 2 ^ 62 }
    ensures { result ≡ window_at bytes.now k }
{
    if k + 2 < bytes.len() {
        return (u32::from(bytes[k]) * 256 + u32::from(bytes[k + 1])) * 256
            + u32::from(bytes[k + 2]);
    }
    (u32::from(byte(bytes, k)) * 256 + u32::from(byte(bytes, k + 1))) * 256
        + u32::from(byte(bytes, k + 2))
}

// The eight bytes from byte i on, as one number.
pub fn eight_bytes(bytes: &[u8], i: usize) -> u64
    requires { i + 7 < length bytes.now }
    ensures { result ≡ field_at bytes.now (8 * i) 64 }
{
    u64::from_be_bytes([
        bytes[i],
        bytes[i + 1],
        bytes[i + 2],
        bytes[i + 3],
        bytes[i + 4],
        bytes[i + 5],
        bytes[i + 6],
        bytes[i + 7],
    ])
}

// Words i to i + 3 as one number.
pub fn four_words(bytes: &[u8], i: usize) -> u64
    requires { 2 * i + 7 < length bytes.now }
    ensures { result ≡ field_at bytes.now (16 * i) 64 }
{
    eight_bytes(bytes, 2 * i)
}

// The number that the n bits from bit `at` on denote. They lie in a window of three bytes.
pub fn field(bytes: &[u8], at: usize, n: usize) -> u16
    requires { n ≤ 16 }
    ensures { (result ≡ field_at bytes.now at n) × (result < 2 ^ n) }
{
    ((window(bytes, at / 8) >> (24 - at % 8 - n)) % (1 << n)) as u16
}

// The same for up to 56 bits, where the eight bytes that hold them are there.
fn wide_field(bytes: &[u8], at: usize, n: usize) -> u64
    requires { (0 < n) × (n ≤ 56) × (at / 8 + 8 ≤ length bytes.now) }
    ensures { result ≡ field_at bytes.now at n }
{
    eight_bytes(bytes, at / 8) << (at % 8) >> (64 - n)
}

// Whether the n bits of a from bit i on are those of b from bit j on: 16 at a time and then the rest, wherever they lie.
fn alike_slowly(a: &[u8], i: usize, b: &[u8], j: usize, n: usize) -> bool
    requires { (i < 2 ^ 32) × (j < 2 ^ 32) × (n < 256) }
    ensures { result ≡ alike_of a.now i b.now j n }
{
    let most = n / 16 * 16;
    (0..n / 16).all(|k| field(a, i + 16 * k, 16) == field(b, j + 16 * k, 16))
        && field(a, i + most, n - most) == field(b, j + most, n - most)
}

// The same for up to 56 bits: at once, unless they lie near the end.
fn alike_at_once(a: &[u8], i: usize, b: &[u8], j: usize, n: usize) -> bool
    requires { (i < 2 ^ 32) × (j < 2 ^ 32) × (n ≤ 56) }
    ensures { result ≡ alike_of a.now i b.now j n }
{
    if n == 0 || a.len() < i / 8 + 8 || b.len() < j / 8 + 8 {
        return alike_slowly(a, i, b, j, n);
    }
    wide_field(a, i, n) == wide_field(b, j, n)
}

// The same: 56 bits at a time and then the last 56, unless they lie near the end.
pub fn alike(a: &[u8], i: usize, b: &[u8], j: usize, n: usize) -> bool
    requires { (i < 2 ^ 32) × (j < 2 ^ 32) × (n < 256) }
    ensures { result ≡ alike_of a.now i b.now j n }
{
    if n < 56 {
        return alike_at_once(a, i, b, j, n);
    }
    if a.len() <= (i + n) / 8 || b.len() <= (j + n) / 8 {
        return alike_slowly(a, i, b, j, n);
    }
    (0..n / 56).all(|k| wide_field(a, i + 56 * k, 56) == wide_field(b, j + 56 * k, 56))
        && wide_field(a, i + n - 56, 56) == wide_field(b, j + n - 56, 56)
}

// The last 16 of the first n bits. They lie in the last three bytes of these bits.
pub fn last_word(bytes: &[u8], n: usize) -> u16
    requires { (24 ≤ n) × (n ≤ 8 * length bytes.now) }
    ensures { result ≡ field_at bytes.now (n - 16) 16 }
{
    let k = (n - 1) / 8;
    let v = (u32::from(bytes[k - 2]) * 256 + u32::from(bytes[k - 1])) * 256 + u32::from(bytes[k]);
    ((v >> (7 - (n - 1) % 8)) % 65536) as u16
}
