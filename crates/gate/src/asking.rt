// What a line asks for, by its bytes alone.
use depot::{Command, Place, Round};
use lines::parts::{Digits, Parts};
use lines::verbs;

// The bytes of the largest room, and the most bits or stores that a line says.
const ROOM: u32 = 9604;

const MOST: u32 = 1000000;

// A command, the number that it carries, its cover number, its data if it has any, and what stands behind it for bench.
#[derive(Clone, Copy)]
pub struct Asked<'a> {
    pub command: Command,
    pub number: u16,
    pub cover: u16,
    pub data: Option<Digits<'a>>,
    pub behind: Option<&'a [u8]>,
}

// A reply of so many bits, and the command that it answers.
#[derive(Clone, Copy)]
pub struct Reply<'a> {
    pub bits: usize,
    pub bytes: Digits<'a>,
    pub to: Asked<'a>,
}

// What a line is: one that goes through, the room's size, a command, or a reply to one.
#[derive(Clone, Copy)]
pub enum Said<'a> {
    Through,
    Room(usize),
    Make(Asked<'a>),
    Reply(Reply<'a>),
}

// A command that carries no number.
fn bare<'a>(command: Command) -> Asked<'a> {
    Asked {
        command,
        number: 0,
        cover: 0,
        data: None,
        behind: None,
    }
}

// A command with a number, as the handle.
fn on<'a>(number: u16, command: Command) -> Asked<'a> {
    Asked {
        number,
        ..bare(command)
    }
}

// The same with a cover number.
fn under<'a>(number: u16, cover: u16, command: Command) -> Asked<'a> {
    Asked {
        cover,
        ..on(number, command)
    }
}

// The next part as any number.
fn any(parts: &mut Parts<'_>) -> Option<u32> {
    parts.number(u32::MAX)
}

fn place(parts: &mut Parts<'_>) -> Option<Place> {
    Some(Place {
        bank: any(parts)?,
        pointer: any(parts)?,
    })
}

// The fields of a Query.
fn round(parts: &mut Parts<'_>) -> Option<Round> {
    Some(Round {
        dr: any(parts)?,
        m: any(parts)?,
        trext: any(parts)?,
        sel: any(parts)?,
        session: any(parts)?,
        target: any(parts)?,
        q: any(parts)?,
    })
}

fn select<'a>(parts: &mut Parts<'a>) -> Option<Asked<'a>> {
    let target = any(parts)?;
    let action = any(parts)?;
    let command = Command::Select(target, action, place(parts)?, any(parts)?);
    Some(Asked {
        data: Some(parts.hex()?),
        ..bare(command)
    })
}

fn block_write<'a>(parts: &mut Parts<'a>) -> Option<Asked<'a>> {
    let number = parts.word()?;
    let command = Command::BlockWrite(place(parts)?);
    Some(Asked {
        data: Some(parts.hex()?),
        ..on(number, command)
    })
}

// Its two forms: permalock bits are read, or locked.
fn block_permalock<'a>(parts: &mut Parts<'a>) -> Option<Asked<'a>> {
    let number = parts.word()?;
    match parts.next()? {
        b"read" => {
            let command = Command::ReadPermalock(place(parts)?, any(parts)?);
            Some(on(number, command))
        }
        b"lock" => {
            let command = Command::Permalock(place(parts)?);
            Some(Asked {
                data: Some(parts.hex()?),
                ..on(number, command)
            })
        }
        _ => None,
    }
}

fn write<'a>(parts: &mut Parts<'a>) -> Option<Asked<'a>> {
    let number = parts.word()?;
    let cover = parts.word()?;
    let command = Command::Write(place(parts)?, parts.word()?);
    Some(under(number, cover, command))
}

// The commands with a handle.
fn linked<'a>(name: &[u8], parts: &mut Parts<'a>) -> Option<Asked<'a>> {
    let asked = match name {
        b"Read" => on(parts.word()?, Command::Read(place(parts)?, any(parts)?)),
        b"Write" => write(parts)?,
        b"Kill" => under(parts.word()?, parts.word()?, Command::Kill(parts.word()?)),
        b"Access" => under(parts.word()?, parts.word()?, Command::Access(parts.word()?)),
        b"Lock" => on(parts.word()?, Command::Lock(parts.word()?, parts.word()?)),
        b"BlockWrite" => block_write(parts)?,
        b"BlockErase" => on(
            parts.word()?,
            Command::BlockErase(place(parts)?, any(parts)?),
        ),
        b"BlockPermalock" => block_permalock(parts)?,
        _ => return None,
    };
    Some(asked)
}

// Every command: those that lead from a round to a handle or back, and then the others.
fn named<'a>(name: &[u8], parts: &mut Parts<'a>) -> Option<Asked<'a>> {
    let asked = match name {
        b"QueryRep" => bare(Command::QueryRep(any(parts)?)),
        b"QueryAdjust" => bare(Command::QueryAdjust(any(parts)?, any(parts)?)),
        b"Query" => bare(Command::Query(round(parts)?)),
        b"Select" => select(parts)?,
        b"ACK" => on(parts.word()?, Command::Ack),
        b"Req_RN" => on(parts.word()?, Command::ReqRn),
        b"NAK" => bare(Command::Nak),
        _ => linked(name, parts)?,
    };
    Some(asked)
}

// What may stand behind a command: bench's word, room and stores.
fn played(rest: &[u8]) -> Option<()> {
    let mut parts = Parts::of(rest);
    parts.word()?;
    parts.size(ROOM)?;
    parts.size(MOST)?;
    parts.end()
}

// A command by its name and its parts.
fn command(line: &[u8]) -> Option<Asked<'_>> {
    let mut parts = Parts::of(line);
    let asked = named(parts.next()?, &mut parts)?;
    let behind = parts.rest();
    if let Some(rest) = behind {
        played(rest)?;
    }
    Some(Asked { behind, ..asked })
}

// A reply, and the command that it answers.
fn heard<'a>(parts: &mut Parts<'a>) -> Option<Reply<'a>> {
    Some(Reply {
        bits: parts.size(MOST)?,
        bytes: parts.hex()?,
        to: command(parts.rest()?)?,
    })
}

// The size that a line sets the room to.
fn room(parts: &mut Parts<'_>) -> Option<usize> {
    let bytes = parts.size(ROOM)?;
    parts.end()?;
    Some(bytes)
}

// A line that has bytes and is no comment.
fn spoken(line: &[u8]) -> Option<Said<'_>> {
    let mut parts = Parts::of(line);
    let first = parts.next()?;
    if verbs::verb_of(first).is_some() {
        return Some(Said::Through);
    }
    match first {
        b"reply" => Some(Said::Reply(heard(&mut parts)?)),
        b"room" => Some(Said::Room(room(&mut parts)?)),
        _ => Some(Said::Make(command(line)?)),
    }
}

// What a line is, if it is one of the list.
pub fn meant(line: &[u8]) -> Option<Said<'_>> {
    if line.is_empty() || line[0] == b'#' {
        return Some(Said::Through);
    }
    spoken(line)
}
