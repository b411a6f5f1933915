// The depot's half: frames made, and replies read (RULES 12). No image and no session.
#![tactic(auto)]

ghost use Rattle.std.specs.Prelude.{◌≡◌};
ghost use Rattle.depot.specs.Making.{number_of, sent, make_of};
ghost use Rattle.readings.specs.Reading.{meaning};
ghost use Rattle.depot.specs.Reading.{read_of};

mod awaiting;
mod laying;
mod limits;
mod putting;

use readings::Reply;
pub use readings::{NotRead, Reading};

// Where words of a bank begin, or bits.
#[derive(Clone, Copy)]
pub struct Place {
    pub bank: u32,
    pub pointer: u32,
}

// The fields of a Query.
#[derive(Clone, Copy)]
pub struct Round {
    pub dr: u32,
    pub m: u32,
    pub trext: u32,
    pub sel: u32,
    pub session: u32,
    pub target: u32,
    pub q: u32,
}

// A command without the number that it carries and without its payload. Words and halves are uncovered. QueryRep has a session, QueryAdjust a session and UpDn, Select target,
// action, place and length, and its mask for payload. BlockWrite's words and Permalock's masks are payload too. Its numbers are as asked for, since making refuses those beyond the
// limits.
#[derive(Clone, Copy)]
pub enum Command {
    QueryRep(u32),
    Ack,
    Query(Round),
    QueryAdjust(u32, u32),
    Select(u32, u32, Place, u32),
    Nak,
    ReqRn,
    Read(Place, u32),
    Write(Place, u16),
    Kill(u16),
    Lock(u16, u16),
    Access(u16),
    BlockWrite(Place),
    BlockErase(Place, u32),
    ReadPermalock(Place, u32),
    Permalock(Place),
}

// Why a frame is not made.
#[derive(Clone, Copy, Debug, PartialEq, Eq)]
pub enum NotMade {
    // 9: the command is beyond the limits.
    Beyond,
    // 4: the room has fewer bytes than the frame.
    NoRoom,
}

impl From<NotMade> for usize {
    ghost from_gives = { λ refusal n. n ≡ number_of refusal };

    fn from(refusal: NotMade) -> usize {
        match refusal {
            NotMade::Beyond => 9,
            NotMade::NoRoom => 4,
        }
    }
}

// The frame of a command, with the number that it carries and a cover number, into the room; how many bits it has.
pub fn make(
    command: Command,
    payload: &[u8],
    number: u16,
    cover: u16,
    room: &mut [u8],
) -> Result<usize, NotMade>
    ensures { sent result room.new ≡ make_of command payload.now number cover room.old }
{
    if !limits::within(command, payload.len()) {
        return Err(NotMade::Beyond);
    }
    let l = laying::lay(command, number, cover, payload.len());
    let n = l.total();
    if room.len() < n.div_ceil(8) {
        return Err(NotMade::NoRoom);
    }
    putting::put(room, l, payload);
    Ok(n)
}

// What n bits of lent bytes say as a reply to a command, with the number that it carried.
pub fn read(
    command: Command,
    payload: &[u8],
    number: u16,
    n: usize,
    bytes: &[u8],
) -> Result<Reading, NotRead>
    ensures { meaning result ≡ read_of command payload.now number n bytes.now }
{
    if !limits::within(command, payload.len()) {
        return Err(NotRead::Beyond);
    }
    if n < 16 || bytes.len() < n.div_ceil(8) {
        return Err(NotRead::Checksum);
    }
    let reply = Reply {
        bytes,
        bits: n,
        handle: number,
    };
    reply.told(awaiting::kind_of(command))
}
