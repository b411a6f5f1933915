// CRC-16 of lent bytes' bits (RULES 2.8): by eight bytes, then the rest at once, or bit by bit where it is under 16 bits. CRC-5 of the first 17.
#![tactic(auto)]

ghost use Rattle.std.specs.Prelude.{◌≡◌, ◌+◌, ◌-◌, ◌/◌, ◌*◌, ◌%◌, ◌^◌, ◌≤◌, ◌<◌, length};
ghost use Rattle.bits.specs.Bits.{bits_from, bits_of, field_at};
ghost use Rattle.crc.specs.Crc.{crc_of, run, shift};
ghost use Rattle.crc.specs.Crc5.{crc5_of};

// One shift of the register r by the bit b. Each width below has a formula of its own for the same run, so no function serves them all.
pub fn step(r: u16, b: u16) -> u16
    requires { b < 2 }
    ensures { result ≡ shift r b }
{
    r << 1 ^ (r >> 15 ^ b) * 0x1021
}

// Eight shifts at once, by the bits of b: t is the quotient of what leaves the register by the generator.
pub fn step8(r: u16, b: u8) -> u16
    ensures { result ≡ run r (bits_of 8 b) }
{
    let x = r >> 8 ^ u16::from(b);
    let t = x ^ x >> 4;
    r << 8 ^ t << 12 ^ t << 5 ^ t
}

// Sixteen, by the bits of w: q is the quotient.
pub fn step16(r: u16, w: u16) -> u16
    ensures { result ≡ run r (bits_of 16 w) }
{
    let x = r ^ w;
    let t = x ^ x >> 4;
    let q = t ^ t >> 8 ^ x >> 11;
    q << 12 ^ q << 5 ^ q
}

// Sixty-four of the register 0, by the bits of x: the quotient q is made by four sparse factors.
fn rest(x: u64) -> u16
    ensures { result ≡ run 0 (bits_of 64 x) }
{
    let a = x ^ x >> 32;
    let b = a ^ a >> 16 ^ a >> 44;
    let c = b ^ b >> 8 ^ b >> 22 ^ b >> 32;
    let q = c ^ c >> 4 ^ c >> 11 ^ c >> 16;
    ((q << 12 ^ q << 5 ^ q) % 65536) as u16
}

// Sixty-four, by the bits of w.
pub fn step64(r: u16, w: u64) -> u16
    ensures { result ≡ run r (bits_of 64 w) }
{
    rest(u64::from(r) << 48 ^ w)
}

// The number that the k bits from byte `at` on denote.
fn tail(bytes: &[u8], at: usize, k: usize) -> u64
    requires { (16 ≤ k) × (k < 64) × (8 * at + k ≤ 8 * length bytes.now) }
    ensures { result ≡ field_at bytes.now (8 * at) k }
{
    if at + 8 <= bytes.len() {
        return bits::eight_bytes(bytes, at) >> (64 - k);
    }
    let mut v: u64 = 0;
    for i in 0..k / 8 {
        v = v * 256 + u64::from(bytes[at + i]);
    }
    if k % 8 == 0 {
        return v;
    }
    (v << (k % 8)) + u64::from(bytes[at + k / 8] >> (8 - k % 8))
}

// The register after n times eight bytes.
fn eights(bytes: &[u8], n: usize) -> u16
    requires { 8 * n ≤ length bytes.now }
    ensures { result ≡ run 0xFFFF (bits_from bytes.now 0 (64 * n)) }
{
    let mut r: u16 = 0xFFFF;
    for k in 0..n {
        r = step64(r, bits::eight_bytes(bytes, 8 * k));
    }
    r
}

// The CRC-16 of the first n bits.
pub fn crc16(bytes: &[u8], n: usize) -> u16
    requires { n ≤ 8 * length bytes.now }
    ensures { result ≡ crc_of (bits_from bytes.now 0 n) }
{
    // A Req_RN's bits.
    if n == 24 {
        return !step8(step16(0xFFFF, bits::word_in(bytes, 0)), bytes[2]);
    }
    let mut r = eights(bytes, n / 64);
    let k = n % 64;
    if k >= 16 {
        return !rest(u64::from(r) << (k - 16) ^ tail(bytes, n / 64 * 8, k));
    }
    for i in n / 64 * 64..n {
        r = step(r, bits::bit(bytes, i));
    }
    !r
}

// The CRC-16 of the first n words, whose bits may be more than a usize counts.
pub fn crc16_words(bytes: &[u8], n: usize) -> u16
    requires { 2 * n ≤ length bytes.now }
    ensures { result ≡ crc_of (bits_from bytes.now 0 (16 * n)) }
{
    let r = eights(bytes, n / 4);
    let k = n % 4 * 16;
    if k == 0 {
        return !r;
    }
    !rest(u64::from(r) << (k - 16) ^ tail(bytes, n / 4 * 8, k))
}

// The CRC-5 of the first 17 bits, with 0 for those past the end. The preset stands at their front; q is the quotient, made by four sparse factors.
pub fn crc5(bytes: &[u8]) -> u16
    ensures { result ≡ crc5_of (bits_from bytes.now 0 17) }
{
    let u = u64::from((bits::window(bytes, 0) >> 7) % 0x2_0000) ^ 0x9000;
    let a = u ^ u >> 2 ^ u >> 5;
    let b = a ^ a >> 4 ^ a >> 10;
    let c = b ^ b >> 8;
    let q = c ^ c >> 16;
    ((q << 3 ^ q) % 32) as u16
}
