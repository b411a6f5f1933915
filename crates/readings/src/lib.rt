// What a reply says, by the kind of reply that is awaited (RULES 12.4 and 12.5).
#![tactic(auto)]

ghost use Rattle.std.specs.Prelude.{◌≡◌, ◌&&◌, not, Some, Ok, Err, [], ◌∷◌, ◌+◌, ◌*◌, ◌≤◌, ◌<◌, eqb, length};
ghost use Rattle.bits.specs.Bits.{field_at};
ghost use Rattle.bits.specs.First.{first};
ghost use Rattle.frames.specs.Frames.{checksum_right};
ghost use Rattle.readings.specs.declared.NotRead.TheVariants.{Checksum};
ghost use Rattle.readings.specs.Reading.{number_of, meaning, number, epc, handle, failure, shown, asked};
ghost use Rattle.readings.specs.Steps.{done_rows, kind_rows, awaited_rows, saying};

// What a reply says.
#[derive(Clone, Copy, Debug, PartialEq, Eq)]
pub enum Reading {
    Error(u8),
    // How many, and at which bit they begin.
    Words { count: usize, at: usize },
    Number(u16),
    Done,
}

// Why bits are not read.
#[derive(Clone, Copy, Debug, PartialEq, Eq)]
pub enum NotRead {
    // 9: the command is beyond the limits.
    Beyond,
    // 8: under 16 bits, past the bytes lent, or with a wrong CRC-16.
    Checksum,
    // 15: another length, kind or handle.
    Other,
}

// The replies that answer a command: a drawn number; PC and EPC; a new number; the handle; the handle, or done; done; so many words.
#[derive(Clone, Copy, Debug, PartialEq, Eq)]
pub enum Awaited {
    Drawn,
    Epc,
    Renewed,
    Handle,
    Half,
    Done,
    Words(u32),
}

// A reply as it came: so many bits, which are there, and the number that its command carried.
#[derive(Clone, Copy)]
pub struct Reply<'a> {
    pub bytes: &'a [u8],
    pub bits: usize,
    pub handle: u16,
    ghost there: { (16 ≤ bits) × (bits ≤ 8 * length bytes.now) },
}

impl From<NotRead> for usize {
    ghost from_gives = { λ refusal n. n ≡ number_of refusal };

    fn from(refusal: NotRead) -> usize {
        match refusal {
            NotRead::Beyond => 9,
            NotRead::Checksum => 8,
            NotRead::Other => 15,
        }
    }
}

impl Reply<'_> {
    // Whether the CRC-16 at the end is that of the bits before it.
    fn checked(self) -> Result<(), NotRead>
        ensures { result ≡ first ((Err Checksum, not (checksum_right self.entry.bytes.now self.entry.bits)) ∷ []) (Ok tt) }
    {
        if bits::field(self.bytes, self.bits - 16, 16) == crc::crc16(self.bytes, self.bits - 16) {
            return Ok(());
        }
        Err(NotRead::Checksum)
    }

    // A number, in a reply of so many bits.
    fn number(self, all: usize) -> Result<Reading, NotRead>
        ensures { meaning result ≡ saying ((number (field_at self.entry.bytes.now 0 16), eqb self.entry.bits all) ∷ []) }
    {
        if self.bits == all {
            return Ok(Reading::Number(bits::field(self.bytes, 0, 16)));
        }
        Err(NotRead::Other)
    }

    fn epc(self) -> Result<Reading, NotRead>
        ensures { meaning result ≡ saying (epc self.entry.handle self.entry.bits self.entry.bytes.now ∷ []) }
    {
        let l = usize::from(bits::field(self.bytes, 0, 5));
        if self.bits == 16 * (l + 2) {
            return Ok(Reading::Words {
                count: l + 1,
                at: 0,
            });
        }
        Err(NotRead::Other)
    }

    fn handle(self) -> Result<Reading, NotRead>
        ensures { meaning result ≡ saying (handle self.entry.handle self.entry.bits self.entry.bytes.now ∷ []) }
    {
        if self.bits == 32 && bits::field(self.bytes, 0, 16) == self.handle {
            return Ok(Reading::Number(self.handle));
        }
        Err(NotRead::Other)
    }

    // A first bit, k bits and the handle before the CRC-16.
    fn framed(self, lead: u16, k: usize) -> bool
        requires { 33 + k < 18446744073709551616 }
        ensures { result ≡ (eqb self.entry.bits (33 + k) && (eqb (field_at self.entry.bytes.now 0 1) lead && eqb (field_at self.entry.bytes.now (1 + k) 16) self.entry.handle)) }
    {
        let found = bits::field(self.bytes, 1 + k, 16);
        self.bits == 33 + k && bits::field(self.bytes, 0, 1) == lead && found == self.handle
    }

    fn failure(self) -> Result<Reading, NotRead>
        ensures { meaning result ≡ saying (failure self.entry.handle self.entry.bits self.entry.bytes.now ∷ []) }
    {
        if self.framed(1, 8) {
            return Ok(Reading::Error(bits::field(self.bytes, 1, 8) as u8));
        }
        Err(NotRead::Other)
    }

    fn done(self) -> Result<Reading, NotRead>
        ensures { meaning result ≡ saying (done_rows self.entry.handle self.entry.bits self.entry.bytes.now) }
    {
        if self.framed(0, 0) {
            return Ok(Reading::Done);
        }
        self.failure()
    }

    // The handle after a first half; after a second, done.
    fn half(self) -> Result<Reading, NotRead>
        ensures { meaning result ≡ saying (handle self.entry.handle self.entry.bits self.entry.bytes.now ∷ done_rows self.entry.handle self.entry.bits self.entry.bytes.now) }
    {
        match self.handle() {
            Err(_) => self.done(),
            said => said,
        }
    }

    // The words asked for, or those that the reply has.
    fn asked(self, count: u32) -> usize
        ensures { (result ≡ asked 0 self.entry.bits [] count) × (33 + 16 * result < 18446744073709551616) }
    {
        if count != 0 {
            return count as usize;
        }
        self.bits.saturating_sub(33) / 16
    }

    fn words(self, count: u32) -> Result<Reading, NotRead>
        ensures { meaning result ≡ saying (shown self.entry.handle self.entry.bits self.entry.bytes.now (asked self.entry.handle self.entry.bits self.entry.bytes.now count) ∷ failure self.entry.handle self.entry.bits self.entry.bytes.now ∷ []) }
    {
        let k = self.asked(count);
        if 0 < k && k < 4097 && self.framed(0, 16 * k) {
            return Ok(Reading::Words { count: k, at: 1 });
        }
        self.failure()
    }

    // By the kind of reply, whose CRC-16 is right.
    fn by_kind(self, kind: Awaited) -> Result<Reading, NotRead>
        ensures { meaning result ≡ saying (kind_rows self.entry.handle self.entry.bits self.entry.bytes.now (Some kind)) }
    {
        match kind {
            Awaited::Drawn => self.number(16),
            Awaited::Epc => self.epc(),
            Awaited::Renewed => self.number(32),
            Awaited::Handle => self.handle(),
            Awaited::Half => self.half(),
            Awaited::Done => self.done(),
            Awaited::Words(count) => self.words(count),
        }
    }

    // What it says, where a reply is awaited.
    pub fn told(self, kind: Option<Awaited>) -> Result<Reading, NotRead>
        ensures { meaning result ≡ saying (awaited_rows self.entry.handle self.entry.bits self.entry.bytes.now kind) }
    {
        if matches!(kind, Some(Awaited::Drawn)) {
            return self.number(16);
        }
        self.checked()?;
        self.by_kind(kind.ok_or(NotRead::Other)?)
    }
}
