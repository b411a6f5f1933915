// Replies out: bits into a lent room, the first bit highest (RULES 3.9 to 3.11).
#![tactic(auto)]

ghost use Rattle.std.specs.Prelude.{◌≡◌, [], ◌+◌, ◌-◌, ◌*◌, ◌/◌, ◌%◌, ◌≤◌, ◌<◌, length, replicate};
ghost use Rattle.bits.specs.Bits.{bits_of};
ghost use Rattle.crc.specs.Crc.{run};
ghost use Rattle.replies.specs.Replies.{reply_bits};
ghost use Rattle.bits.specs.Bits.{words_bits};
ghost use Rattle.replies.specs.Pack.{packed};
ghost use Rattle.replies.specs.Steps.{with_bytes, late, ended};

// A reply, as the definitions name it. Words are the image's: the first, and how many.
#[derive(Clone, Copy)]
pub enum Reply {
    Silence,
    Number(u16),
    Success(u16),
    Words(u16, u16, u16),
    Error(u8, u16),
    Drawn(u16),
    Epc(u16, u16),
}

// The handle and the CRC-16 from byte i on, one bit late, and the bit that is left. The register has seen the bits before the handle.
fn put_end(room: &mut [u8], i: usize, before: u64, register: u16, handle: u16)
    requires { i + 4 < length room.old }
    ensures { room.new ≡ ended room.old i before handle (65535 - run register (bits_of 16 handle)) }
{
    let sum = !crc::step16(register, handle);
    let both = u32::from(handle) * 0x10000 + u32::from(sum);
    let late = (before % 2) as u32 * 0x8000_0000 + both / 2;
    room[i..i + 4].copy_from_slice(&late.to_be_bytes());
    room[i + 4] = (sum % 2) as u8 * 128;
}

// Stores the eight bytes of v from byte i on. Byte by byte, since the compiler makes one store of it, and more of a copy.
fn store_eight(room: &mut [u8], i: usize, v: u64)
    requires { i + 7 < length room.old }
    ensures { room.new ≡ with_bytes 8 room.old i v }
{
    let bytes = v.to_be_bytes();
    for k in 0..8 {
        room[i + k] = bytes[k];
    }
}

// A 0, words of the image, the handle and the CRC-16.
pub fn put_words(room: &mut [u8], image: &[u8], from: usize, count: usize, handle: u16)
    requires { (2 * (from + count) ≤ length image.now) × (2 * count + 5 ≤ length room.old) }
    ensures { room.new ≡ packed (reply_bits image.now (Reply.Words from count handle)) room.old }
{
    let mut before: u64 = 0;
    let mut register = crc::step(0xFFFF, 0);
    for j in 0..count / 4 {
        let w = bits::four_words(image, from + 4 * j);
        let late = before % 2 * 0x8000_0000_0000_0000 + w / 2;
        store_eight(room, 8 * j, late);
        register = crc::step64(register, w);
        before = w;
    }
    for j in count / 4 * 4..count {
        let w = bits::word(image, from + j);
        let late = (before % 2) as u16 * 0x8000 + w / 2;
        room[2 * j..2 * j + 2].copy_from_slice(&late.to_be_bytes());
        register = crc::step16(register, w);
        before = u64::from(w);
    }
    put_end(room, 2 * count, before, register, handle);
}

// A 1, a code, the handle and the CRC-16.
pub fn put_error(room: &mut [u8], code: u8, handle: u16)
    requires { 5 < length room.old }
    ensures { room.new ≡ packed (reply_bits [] (Reply.Error code handle)) room.old }
{
    let register = crc::step8(crc::step(0xFFFF, 1), code);
    room[0] = 128 + code / 2;
    put_end(room, 1, u64::from(code), register, handle);
}

// A number and the CRC-16.
pub fn put_number(room: &mut [u8], number: u16)
    requires { 3 < length room.old }
    ensures { room.new ≡ packed (reply_bits [] (Reply.Number number)) room.old }
{
    let sum = !crc::step16(0xFFFF, number);
    let both = u32::from(number) * 0x10000 + u32::from(sum);
    room[..4].copy_from_slice(&both.to_be_bytes());
}

// A 0, the handle and the CRC-16: words, none of them.
pub fn put_success(room: &mut [u8], image: &[u8], handle: u16)
    requires { 5 ≤ length room.old }
    ensures { room.new ≡ packed (reply_bits image.now (Reply.Success handle)) room.old }
{
    put_words(room, image, 0, 0, handle);
}

// A number without a CRC-16.
pub fn put_drawn(room: &mut [u8], number: u16)
    requires { 1 < length room.old }
    ensures { room.new ≡ packed (reply_bits [] (Reply.Drawn number)) room.old }
{
    room[..2].copy_from_slice(&number.to_be_bytes());
}

// Packs words of the image alone, as the port gives them.
pub fn put_plain(room: &mut [u8], image: &[u8], from: usize, count: usize)
    requires { (2 * (from + count) ≤ length image.now) × (2 * count ≤ length room.old) }
    ensures { room.new ≡ packed (words_bits image.now from count) room.old }
{
    // Byte by byte, since the library's copy of a length that the compiler does not know needs memmove of whoever links this.
    for k in 0..2 * count {
        room[k] = image[2 * from + k];
    }
}

// Packs words of the image as `put_plain` does, quicker where they are few.
fn put_few(room: &mut [u8], image: &[u8], from: usize, count: usize)
    requires { (2 * (from + count) ≤ length image.now) × (2 * count ≤ length room.old) }
    ensures { room.new ≡ packed (words_bits image.now from count) room.old }
{
    for j in 0..count / 4 {
        store_eight(room, 8 * j, bits::four_words(image, from + 4 * j));
    }
    for j in count / 4 * 4..count {
        bits::store_word_in(room, j, bits::word_in(image, from + j));
    }
}

// Words of the image and the CRC-16 over them.
pub fn put_epc(room: &mut [u8], image: &[u8], from: usize, count: usize)
    requires { (2 * (from + count) ≤ length image.now) × (2 * count + 2 ≤ length room.old) }
    ensures { room.new ≡ packed (reply_bits image.now (Reply.Epc from count)) room.old }
{
    put_few(room, image, from, count);
    let sum = crc::crc16_words(room, count);
    room[2 * count..2 * count + 2].copy_from_slice(&sum.to_be_bytes());
}

// Packs so many words of 0.
pub fn put_zeros(room: &mut [u8], count: usize)
    requires { 2 * count ≤ length room.old }
    ensures { room.new ≡ packed (replicate (16 * count) 0) room.old }
{
    room[..2 * count].fill(0);
}
