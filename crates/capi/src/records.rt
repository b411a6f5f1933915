// What a call hands back, and a read by the record alone (RULES 10.5).
ghost use Rattle.std.specs.Prelude.{◌≡◌, cond, eqb};
ghost use Rattle.states.specs.Numbers.{numbers_in};
ghost use Rattle.tag.specs.Steps.{held_row};
ghost use Rattle.tag.specs.Session.{number_of, row_in, Stops};
ghost use Rattle.tag.specs.Records.{numbers_of, session_of};
ghost use Rattle.tag.specs.RecordSteps.{off_record};
ghost use Rattle.capi.specs.Steps.{killed_numbers, told_with};

use crate::Told;
use states::{Numbers, Record};
use tag::Answer;

// An outcome as numbers.
impl From<tag::Outcome> for Told {
    ghost from_gives = { λ o t. (t.answer ≡ number_of o.answer) × (numbers_in t.session ≡ numbers_of o.session.power) × (t.reply ≡ o.reply) × (t.stores ≡ o.stores) × (t.value ≡ o.value) };

    fn from(o: tag::Outcome) -> Told {
        Told {
            answer: u8::from(o.answer),
            session: tag::record_of(o.session),
            reply: o.reply,
            stores: o.stores,
            value: o.value,
        }
    }
}

// What a frame left, as numbers.
impl From<tag::Noted> for Told {
    ghost from_gives = { λ o t. (t.answer ≡ number_of o.answer) × (t.session ≡ o.session) × (t.reply ≡ o.reply) × (t.stores ≡ o.stores) × (t.value ≡ 0) };

    fn from(o: tag::Noted) -> Told {
        Told {
            answer: u8::from(o.answer),
            session: o.session,
            reply: o.reply,
            stores: o.stores,
            value: 0,
        }
    }
}

// Answer 5 where the record's session is Off, 6 where the port isn't held.
pub fn held(r: Record) -> Result<(), Answer>
    ensures { (row_in result ≡ held_row (session_of (numbers_in r)).power) × Stops result }
{
    if !tag::fits(r) {
        return Err(Answer::NotReady);
    }
    if r.low / 0x100 % 0x100 == 0 {
        return Err(Answer::Port);
    }
    Ok(())
}

// The record of its own session, by that answer.
pub fn own(r: Record, h: Result<(), Answer>) -> Record
    ensures { result ≡ cond (eqb (row_in h) 5) off_record r }
{
    match h {
        Err(Answer::NotReady) => tag::off_record(),
        _ => r,
    }
}

// The record with bit 0 of its register set.
pub fn with_killed(r: Record) -> Record
    ensures { numbers_in result ≡ killed_numbers (numbers_in r) }
{
    let v = Numbers::from(r);
    Record::from(Numbers {
        reg: v.reg | 1,
        ..v
    })
}

// An outcome without stores as numbers.
pub fn told(answer: u8, session: Record, reply: usize) -> Told
    ensures { result ≡ told_with answer session reply }
{
    Told {
        answer,
        session,
        reply,
        stores: 0,
        value: 0,
    }
}
