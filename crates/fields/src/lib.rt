// Bits into a lent room, one after the other, the first bit highest, and a check behind them (RULES 12.2).
#![tactic(auto)]

ghost use Rattle.std.specs.Prelude.{ℕ, Some, None, ◌+◌, ◌-◌, ◌*◌, ◌/◌, ◌^◌, ◌≤◌, ◌<◌, ◌≡◌, List, [], ◌∷◌, length};
ghost use Rattle.bits.specs.Bits.{bits_from, bits_of};
ghost use Rattle.bits.proofs.Digits.{Bits};
ghost use Rattle.replies.specs.Pack.{packed};
ghost use Rattle.fields.specs.Steps.{field_bits, check_of, check_bits, seal_bits, with_bit, Goes};

// A number and how many of its low bits count.
#[derive(Clone, Copy, Default)]
pub struct Field {
    pub value: u32,
    pub bits: usize,
}

// A byte with the bit b behind its first k, and zeros behind that.
fn with_bit(old: u8, k: usize, b: u16) -> u8
    requires { (k < 8) × (b < 2) }
    ensures { result ≡ with_bit old k b }
{
    (((u16::from(old) >> (8 - k)) * 2 + b) << (7 - k)) as u8
}

// Bit k of a number of n bits, the highest first.
fn bit_of(v: u32, n: usize, k: usize) -> u16
    requires { (k < n) × (n ≤ 32) }
    ensures { (bits_of 1 (v / 2 ^ (n - 1 - k)) ≡ result ∷ []) × (result < 2) }
{
    ((v >> (n - 1 - k)) % 2) as u16
}

// A lent room, and the place of the next bit in it.
#[derive(Drop)]
pub struct Pen<'a> {
    pub room: &'a mut [u8],
    pub at: usize,
}

impl Pen<'_> {
    // One bit.
    fn put_bit(&mut self, b: u16)
        requires { (self.old.at < 8 * length self.old.room.now) × (self.old.at ≤ 8296) × (b < 2) }
        ensures same_room { self.new.room.ghost_name ≡ self.old.room.ghost_name }
        ensures same_length { length self.new.room.now ≡ length self.old.room.now }
        ensures moved { self.new.at ≡ self.old.at + 1 }
        ensures put { Goes self.old.room.now self.old.at (b ∷ []) self.new.room.now }
    {
        let k = self.at / 8;
        self.room[k] = with_bit(self.room[k], self.at % 8, b);
        self.at += 1;
    }

    // The low bits of a number.
    pub fn put_field(&mut self, f: Field)
        requires { (f.bits ≤ 32) × (self.old.at + f.bits ≤ 8 * length self.old.room.now) × (self.old.at ≤ 4200) }
        ensures same_room { self.new.room.ghost_name ≡ self.old.room.ghost_name }
        ensures same_length { length self.new.room.now ≡ length self.old.room.now }
        ensures moved { self.new.at ≡ self.old.at + f.bits }
        ensures put { Goes self.old.room.now self.old.at (field_bits f) self.new.room.now }
    {
        for k in 0..f.bits {
            self.put_bit(bit_of(f.value, f.bits, k));
        }
    }

    // The first n bits of the payload. A loop of its own: a closure that gives the bits would be no shorter.
    pub fn put_payload(&mut self, payload: &[u8], n: usize)
        requires { (self.old.at + n ≤ 8 * length self.old.room.now) × (self.old.at ≤ 4200) × (n ≤ 4096) }
        ensures same_room { self.new.room.ghost_name ≡ self.old.room.ghost_name }
        ensures same_length { length self.new.room.now ≡ length self.old.room.now }
        ensures moved { self.new.at ≡ self.old.at + n }
        ensures put { Goes self.old.room.now self.old.at (bits_from payload.now 0 n) self.new.room.now }
    {
        for k in 0..n {
            self.put_bit(bits::bit(payload, k));
        }
    }

    // The check of so many bits over the bits so far, if there is one of that size.
    fn check(&self, bits: usize) -> Option<u16>
        requires { (self.now.at ≤ 8 * length self.now.room.now) × (bits ≡ 5 → 17 ≤ self.now.at) }
        ensures { result ≡ check_of bits (bits_from self.now.room.now 0 self.now.at) }
    {
        match bits {
            16 => Some(crc::crc16(self.room, self.at)),
            5 => Some(crc::crc5(self.room)),
            _ => None,
        }
    }

    // The check over the bits so far, behind them.
    pub fn put_check(&mut self, bits: usize)
        requires { (self.old.at + bits ≤ 8 * length self.old.room.now) × (self.old.at ≤ 4200) × (bits ≡ 5 → 17 ≤ self.old.at) }
        ensures same_room { self.new.room.ghost_name ≡ self.old.room.ghost_name }
        ensures same_length { length self.new.room.now ≡ length self.old.room.now }
        ensures moved { self.new.at ≡ self.old.at + check_bits bits }
        ensures sealed { (xs first : List ℕ) → length xs ≡ self.old.at → Bits xs → self.old.room.now ≡ packed xs first → self.new.room.now ≡ packed (seal_bits bits xs) first }
    {
        if let Some(sum) = self.check(bits) {
            self.put_field(Field {
                value: u32::from(sum),
                bits,
            });
        }
    }
}
