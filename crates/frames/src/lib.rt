// Frames in: from a frame's bits to what it asks for (RULES 3.5 to 3.8 and 11.1).
#![tactic(auto)]

ghost use Rattle.std.specs.Prelude.{◌≡◌, ◌+◌, ◌*◌, ◌/◌, ◌%◌, ◌^◌, ◌≤◌, ◌<◌, [], ◌∷◌, not, eqb, length, Ok, Err};
ghost use Rattle.std.specs.Option.{IsSome, MatchOption};
ghost use Rattle.bits.specs.Words.{Bytes};
ghost use Rattle.bits.specs.Bits.{field_at};
ghost use Rattle.bits.specs.First.{first};
ghost use Rattle.frames.specs.declared.Flaw.TheVariants as flaw;
ghost use Rattle.frames.specs.Message.{meaning, refused};
ghost use Rattle.frames.specs.Frames.{heard_of, checksum_right, plainly, exactly, span as span_of, query_frame, select_frame, read_frame, write_frame, block_write_frame, block_erase_frame, permalock_frame};
ghost use Rattle.frames.specs.Steps.{called, query_rep_frame, ack_frame, query_adjust_frame};

use ebv::Pointer;

// Words of a bank: the bank's number, the first word and how many. For BlockPermalock the words are PERMA's.
#[derive(Clone, Copy)]
pub struct Span {
    pub bank: u16,
    pub pointer: u32,
    pub count: u16,
}

// An inventory round: its session, 0 to 3, and its Q, 0 to 15.
#[derive(Clone, Copy)]
pub struct Round {
    pub session: u8,
    pub q: u8,
}

// What a Select says: its target, its action, the bits of a bank that the mask is compared with, and its truncate bit.
#[derive(Clone, Copy)]
pub struct Choice {
    pub target: u8,
    pub action: u8,
    pub bits: Span,
    pub truncate: u8,
}

// What a command asks for. Words and halves are as sent, covered. A place is the first bit of the words, or of the mask, that the frame brings. QueryRep has a session,
// ACK its number, Query Sel, target and round, QueryAdjust a session and UpDn. The code makes the five of inventory as `Calling`.
#[derive(Clone, Copy)]
pub enum Order {
    QueryRep(u8),
    Ack(u16),
    Query(u8, u8, Round),
    QueryAdjust(u8, u8),
    Select(Choice, usize),
    Nak,
    ReqRn,
    Read(Span),
    Write(Span, u16),
    Kill(u16),
    Lock(u16, u16),
    Access(u16),
    BlockWrite(Span, usize),
    BlockErase(Span),
    ReadPermalock(u16, Span),
    Permalock(u16, Span, usize),
}

// A command: the number that it must carry to be for a tag, and what it asks for. The five of inventory and NAK are for every tag, and have 0: an ACK's own number is
// a part of what it asks for.
#[derive(Clone, Copy)]
pub struct Command {
    pub number: u16,
    pub order: Order,
}

// What a frame of inventory says: QueryRep its session, ACK its number, Query Sel, target, session and Q, QueryAdjust a session and UpDn, Select its choice and the mask's
// first bit.
#[derive(Clone, Copy)]
pub enum Calling {
    QueryRep(u8),
    Ack(u16),
    Query(u8, u8, u8, u8),
    QueryAdjust(u8, u8),
    Select(Choice, usize),
}

// Why a frame says nothing: no layout or length of a command's, or a wrong CRC.
#[derive(Clone, Copy, Debug, PartialEq, Eq)]
pub enum Flaw {
    Malformed,
    Checksum,
}

// A frame of so many bits: a code's first four at least, and at most those of its bytes.
#[derive(Clone, Copy)]
pub struct Frame<'a> {
    bytes: &'a [u8],
    bits: usize,
    ghost whole: { (4 ≤ bits) × (bits ≤ 8 * length bytes.now) },
    ghost lent: { Bytes bytes.now },
}

// Some of a number's bits.
fn part(x: u32, unit: u32, most: u32) -> u8
    requires { (0 < unit) × (0 < most) × (most ≤ 256) }
    ensures { result ≡ x / unit % most }
{
    (x / unit % most) as u8
}

impl<'a> Frame<'a> {
    // The frame of n bits in some bytes. None is malformed.
    pub fn of(bytes: &'a [u8], n: usize) -> Option<Frame<'a>>
        ensures says { MatchOption result (heard_of bytes.now n ≡ refused 7) (λ f. (f.bytes.now ≡ bytes.now) × (f.bits ≡ n)) }
        ensures whole { (4 ≤ n) × (n ≤ 8 * length bytes.now) → IsSome result }
    {
        if n < 4 || bytes.len() <= (n - 1) / 8 {
            return None;
        }
        Some(Frame { bytes, bits: n })
    }

    // Its first eight bits.
    pub fn code(&self) -> u8
        ensures { result ≡ field_at self.now.bytes.now 0 8 }
    {
        self.bytes[0]
    }

    // The n bits from bit `at` on.
    fn field(&self, at: usize, n: usize) -> u16
        requires { n ≤ 16 }
        ensures { (result ≡ field_at self.now.bytes.now at n) × (result < 2 ^ n) }
    {
        bits::field(self.bytes, at, n)
    }

    // At most 8 of them.
    fn small(&self, at: usize, n: usize) -> u8
        requires { n ≤ 8 }
        ensures { (result ≡ field_at self.now.bytes.now at n) × (result < 2 ^ n) }
    {
        bits::field(self.bytes, at, n) as u8
    }

    // One.
    fn one(&self, at: usize) -> u8
        ensures { result ≡ field_at self.now.bytes.now at 1 }
    {
        bits::bit(self.bytes, at) as u8
    }

    // Whether the CRC-16 at its end is that of the bits before it.
    fn checksum_right(&self) -> bool
        requires { 24 ≤ self.now.bits }
        ensures { result ≡ checksum_right self.now.bytes.now self.now.bits }
    {
        bits::last_word(self.bytes, self.bits) == crc::crc16(self.bytes, self.bits - 16)
    }

    // It has exactly k bits.
    fn long(&self, k: usize) -> Result<(), Flaw>
        ensures { result ≡ first ((Err flaw.Malformed, not (eqb self.now.bits k)) ∷ []) (Ok tt) }
    {
        if self.bits != k {
            return Err(Flaw::Malformed);
        }
        Ok(())
    }

    // It has exactly k bits, and its CRC-16 is right.
    fn checked(&self, k: usize) -> Result<(), Flaw>
        requires { 24 ≤ k }
        ensures { result ≡ first ((Err flaw.Malformed, not (eqb self.now.bits k)) ∷ (Err flaw.Checksum, not (checksum_right self.now.bytes.now self.now.bits)) ∷ []) (Ok tt) }
    {
        self.long(k)?;
        if !self.checksum_right() {
            return Err(Flaw::Checksum);
        }
        Ok(())
    }

    // The order in a frame of exactly k bits, without a CRC.
    fn plain(&self, k: usize, order: Order) -> Result<Command, Flaw>
        ensures { meaning result ≡ plainly self.now.bits k order }
    {
        self.long(k)?;
        Ok(Command { number: 0, order })
    }

    // The order in a frame of exactly k bits, with the number before the CRC-16.
    fn exact(&self, k: usize, order: Order) -> Result<Command, Flaw>
        requires { 40 ≤ k }
        ensures { meaning result ≡ exactly self.now.bytes.now self.now.bits k order }
    {
        self.checked(k)?;
        let number = bits::last_word(self.bytes, self.bits - 16);
        Ok(Command { number, order })
    }

    // Words as a command names them: the bank at bit `at`, a pointer, the count.
    fn named(&self, at: usize, p: Pointer) -> Span
        requires { (at < 64) × (p.bytes ≤ 3) }
        ensures { (result ≡ span_of (field_at self.now.bytes.now at 2) p.value (field_at self.now.bytes.now (at + 2 + 8 * p.bytes) 8)) × (result.count < 256) }
    {
        Span {
            bank: self.field(at, 2),
            pointer: p.value,
            count: self.field(at + 2 + 8 * p.bytes, 8),
        }
    }

    fn query_rep(&self) -> Result<Calling, Flaw>
        ensures { called result ≡ query_rep_frame self.now.bytes.now self.now.bits }
    {
        self.long(4)?;
        Ok(Calling::QueryRep(self.small(2, 2)))
    }

    fn ack(&self) -> Result<Calling, Flaw>
        ensures { called result ≡ ack_frame self.now.bytes.now self.now.bits }
    {
        self.long(18)?;
        Ok(Calling::Ack(self.field(2, 16)))
    }

    // All of a Query stands in three bytes.
    fn query(&self) -> Result<Calling, Flaw>
        ensures { called result ≡ query_frame self.now.bytes.now self.now.bits }
    {
        self.long(22)?;
        let x = bits::window(self.bytes, 0);
        if u16::from(part(x, 4, 32)) != crc::crc5(self.bytes) {
            return Err(Flaw::Checksum);
        }
        let sel = part(x, 0x4000, 4);
        let session = part(x, 0x1000, 4);
        let target = part(x, 0x800, 2);
        let q = part(x, 0x80, 16);
        Ok(Calling::Query(sel, target, session, q))
    }

    fn query_adjust(&self) -> Result<Calling, Flaw>
        ensures { called result ≡ query_adjust_frame self.now.bytes.now self.now.bits }
    {
        self.long(9)?;
        Ok(Calling::QueryAdjust(self.small(4, 2), self.small(6, 3)))
    }

    fn select(&self) -> Result<Calling, Flaw>
        ensures { called result ≡ select_frame self.now.bytes.now self.now.bits }
    {
        let Some(p) = ebv::read(self.bytes, self.bits, 12) else {
            return Err(Flaw::Malformed);
        };
        let mask = self.named(10, p);
        let at = 20 + 8 * p.bytes;
        let end = at + mask.count as usize;
        let choice = Choice {
            target: self.small(4, 3),
            action: self.small(7, 3),
            bits: mask,
            truncate: self.one(end),
        };
        self.checked(end + 17)?;
        Ok(Calling::Select(choice, at))
    }

    // Read and BlockErase are two functions, since each command takes its pointer apart by let .. else (DECISIONS, Forms).
    fn read(&self) -> Result<Command, Flaw>
        ensures { meaning result ≡ read_frame self.now.bytes.now self.now.bits }
    {
        let Some(p) = ebv::read(self.bytes, self.bits, 10) else {
            return Err(Flaw::Malformed);
        };
        self.exact(50 + 8 * p.bytes, Order::Read(self.named(8, p)))
    }

    fn write(&self) -> Result<Command, Flaw>
        ensures { meaning result ≡ write_frame self.now.bytes.now self.now.bits }
    {
        let Some(p) = ebv::read(self.bytes, self.bits, 10) else {
            return Err(Flaw::Malformed);
        };
        let words = Span {
            bank: self.field(8, 2),
            pointer: p.value,
            count: 1,
        };
        let data = self.field(10 + 8 * p.bytes, 16);
        self.exact(58 + 8 * p.bytes, Order::Write(words, data))
    }

    fn block_write(&self) -> Result<Command, Flaw>
        ensures { meaning result ≡ block_write_frame self.now.bytes.now self.now.bits }
    {
        let Some(p) = ebv::read(self.bytes, self.bits, 10) else {
            return Err(Flaw::Malformed);
        };
        let w = 8 * p.bytes;
        let words = self.named(8, p);
        self.exact(
            50 + w + 16 * words.count as usize,
            Order::BlockWrite(words, 18 + w),
        )
    }

    fn block_erase(&self) -> Result<Command, Flaw>
        ensures { meaning result ≡ block_erase_frame self.now.bytes.now self.now.bits }
    {
        let Some(p) = ebv::read(self.bytes, self.bits, 10) else {
            return Err(Flaw::Malformed);
        };
        self.exact(50 + 8 * p.bytes, Order::BlockErase(self.named(8, p)))
    }

    fn permalock(&self) -> Result<Command, Flaw>
        ensures { meaning result ≡ permalock_frame self.now.bytes.now self.now.bits }
    {
        let Some(p) = ebv::read(self.bytes, self.bits, 19) else {
            return Err(Flaw::Malformed);
        };
        let w = 8 * p.bytes;
        let rfu = self.field(8, 8);
        let words = self.named(17, p);
        if self.field(16, 1) == 0 {
            return self.exact(59 + w, Order::ReadPermalock(rfu, words));
        }
        self.exact(
            59 + w + 16 * words.count as usize,
            Order::Permalock(rfu, words, 27 + w),
        )
    }

    // What a frame of inventory says: its code, of two bits or four, chooses layout and length.
    pub fn call(&self) -> Result<Calling, Flaw>
        requires { field_at self.now.bytes.now 0 8 < 0xC0 }
        ensures { called result ≡ heard_of self.now.bytes.now self.now.bits }
    {
        match self.code() {
            0x00..=0x3F => self.query_rep(),
            0x40..=0x7F => self.ack(),
            0x80..=0x8F => self.query(),
            0x90..=0x9F => self.query_adjust(),
            0xA0..=0xAF => self.select(),
            // C0h to FFh never come here
            0xB0..=0xFF => Err(Flaw::Malformed),
        }
    }

    // What any other frame says: its code, of eight bits, chooses layout and length.
    pub fn hear(&self) -> Result<Command, Flaw>
        requires { 0xC0 ≤ field_at self.now.bytes.now 0 8 }
        ensures { meaning result ≡ heard_of self.now.bytes.now self.now.bits }
    {
        match self.code() {
            0xC0 => self.plain(8, Order::Nak),
            0xC1 => self.exact(40, Order::ReqRn),
            0xC2 => self.read(),
            0xC3 => self.write(),
            0xC4 => self.exact(59, Order::Kill(self.field(8, 16))),
            0xC5 => self.exact(60, Order::Lock(self.field(8, 10), self.field(18, 10))),
            0xC6 => self.exact(56, Order::Access(self.field(8, 16))),
            0xC7 => self.block_write(),
            0xC8 => self.block_erase(),
            0xC9 => self.permalock(),
            // 00h to BFh never come here
            0x00..=0xBF | 0xCA..=0xFF => Err(Flaw::Malformed),
        }
    }
}
