// A record of numbers as a depot's command, and a depot's answers as numbers (RULES 12.9).
ghost use Rattle.std.specs.Prelude.{ℕ, ◌≡◌, Some, None, cond, ltb, List};
ghost use Rattle.depot.specs.Making.{sent};
ghost use Rattle.readings.specs.Reading.{meaning};
ghost use Rattle.capi.specs.Depot.{place_in, round_in, command_of, framed, replied, reply_of};

use crate::{Frame, Reply, Request};
use depot::{Command, NotMade, NotRead, Place, Reading, Round};

impl From<Request> for Place {
    ghost from_gives = { λ r place. place ≡ place_in r };

    fn from(r: Request) -> Place {
        Place {
            bank: r.bank,
            pointer: r.pointer,
        }
    }
}

impl From<Request> for Round {
    ghost from_gives = { λ r round. round ≡ round_in r };

    fn from(r: Request) -> Round {
        Round {
            dr: r.dr,
            m: r.m,
            trext: r.trext,
            sel: r.sel,
            session: r.session,
            target: r.target,
            q: r.q,
        }
    }
}

// A word has 16 bits.
fn word(w: u32) -> Option<u16>
    ensures { result ≡ cond (ltb w 0x10000) (Some w) None }
{
    u16::try_from(w).ok()
}

// The command of a record, by its kind, which is a number for C.
#[tactic(auto, unfolding(crate::specs::Depot::command_of))]
pub fn command_of(r: Request) -> Option<Command>
    ensures { result ≡ command_of r }
{
    Some(match r.kind {
        0 => Command::QueryRep(r.session),
        1 => Command::Ack,
        2 => Command::Query(Round::from(r)),
        3 => Command::QueryAdjust(r.session, r.up_down),
        4 => Command::Select(r.target, r.action, Place::from(r), r.count),
        5 => Command::Nak,
        6 => Command::ReqRn,
        7 => Command::Read(Place::from(r), r.count),
        8 => Command::Write(Place::from(r), word(r.word)?),
        9 => Command::Kill(word(r.word)?),
        10 => Command::Lock(word(r.mask)?, word(r.action)?),
        11 => Command::Access(word(r.word)?),
        12 => Command::BlockWrite(Place::from(r)),
        13 => Command::BlockErase(Place::from(r), r.count),
        14 => Command::ReadPermalock(Place::from(r), r.count),
        15 => Command::Permalock(Place::from(r)),
        _ => return None,
    })
}

// What making answers, as numbers.
impl From<Result<usize, NotMade>> for Frame {
    ghost from_gives = { λ made frame. (room : List ℕ) → framed frame room ≡ sent made room };

    fn from(made: Result<usize, NotMade>) -> Frame {
        match made {
            Ok(bits) => Frame { answer: 0, bits },
            Err(refusal) => Frame {
                answer: usize::from(refusal),
                bits: 0,
            },
        }
    }
}

fn reply(answer: usize, kind: usize, value: usize, at: usize) -> Reply
    ensures { result ≡ replied answer kind value at }
{
    Reply {
        answer,
        kind,
        value,
        at,
    }
}

// What reading answers, as numbers.
impl From<Result<Reading, NotRead>> for Reply {
    ghost from_gives = { λ reading r. r ≡ reply_of (meaning reading) };

    fn from(reading: Result<Reading, NotRead>) -> Reply {
        match reading {
            Ok(Reading::Error(code)) => reply(0, 1, usize::from(code), 0),
            Ok(Reading::Words { count, at }) => reply(0, 2, count, at),
            Ok(Reading::Number(word)) => reply(0, 3, usize::from(word), 0),
            Ok(Reading::Done) => reply(0, 4, 0, 0),
            Err(refusal) => reply(usize::from(refusal), 0, 0, 0),
        }
    }
}
