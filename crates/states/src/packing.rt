// A session as two numbers, and what their parts say (RULES 10.1).
ghost use Rattle.std.specs.Prelude.{◌≡◌, ◌^◌, ◌<◌};
ghost use Rattle.states.specs.Numbers.{numbers_in};
ghost use Rattle.states.specs.Steps.{four_of};

use crate::{Numbers, Record};

// What the parts of a record say.
impl From<Record> for Numbers {
    ghost from_gives = { λ r v. v ≡ numbers_in r };

    fn from(r: Record) -> Numbers
        ensures { result ≡ numbers_in r }
    {
        Numbers {
            state: (r.low % 0x100) as u8,
            held: (r.low / 0x100 % 0x100) as u8,
            reg: (r.low / 0x1_0000 % 0x100) as u8,
            covered: (r.low / 0x100_0000 % 0x100) as u8,
            half: (r.low / 0x1_0000_0000 % 0x100) as u8,
            round: (r.low / 0x100_0000_0000 % 0x100) as u8,
            q: (r.low / 0x1_0000_0000_0000 % 0x100) as u8,
            flags: (r.low / 0x100_0000_0000_0000) as u8,
            number: (r.high % 0x1_0000) as u16,
            cover: (r.high / 0x1_0000 % 0x1_0000) as u16,
            upper: (r.high / 0x1_0000_0000 % 0x1_0000) as u16,
            slot: (r.high / 0x1_0000_0000_0000) as u16,
        }
    }
}

// Four numbers of a byte each.
fn four(a: u8, b: u8, c: u8, d: u8) -> u64
    ensures { (result ≡ four_of a b c d) × (result < 2 ^ 32) × (a < 256) × (b < 256) × (c < 256) × (d < 256) }
{
    u64::from(a) + 0x100 * (u64::from(b) + 0x100 * (u64::from(c) + 0x100 * u64::from(d)))
}

// A session's numbers, packed.
impl From<Numbers> for Record {
    ghost from_gives = { λ v r. numbers_in r ≡ v };

    fn from(v: Numbers) -> Record
        ensures { numbers_in result ≡ v }
    {
        let first = four(v.state, v.held, v.reg, v.covered);
        let second = four(v.half, v.round, v.q, v.flags);
        Record {
            low: first + 0x1_0000_0000 * second,
            high: u64::from(v.number)
                + 0x1_0000
                    * (u64::from(v.cover)
                        + 0x1_0000 * (u64::from(v.upper) + 0x1_0000 * u64::from(v.slot))),
        }
    }
}
