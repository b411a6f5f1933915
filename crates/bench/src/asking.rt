// What a line asks for. One that asks for nothing is a bad line.
ghost use Rattle.std.specs.Prelude.{◌≤◌};

use lines::parts::{Digits, Parts};
use lines::verbs;
use lines::verbs::Verb;

// The bytes of the largest image, and the most bits, words or stores that a line says.
const ROOM: u32 = 9604;

const MOST: u32 = 1000000;

// A line, by what its parts say.
#[derive(Clone, Copy)]
pub enum Asked<'a> {
    Image(Digits<'a>),
    Check,
    Dump,
    Call(Call<'a>),
}

// A call of the tag.
#[derive(Clone, Copy)]
pub enum Call<'a> {
    Power(usize),
    Frame(Frame<'a>),
    Ask,
    Release,
    Register,
    Read(Read),
    Write {
        at: usize,
        words: Digits<'a>,
        stores: usize,
    },
}

// A frame, the random word that the tag draws with it, the room for its reply and for how many stores power lasts.
#[derive(Clone, Copy)]
pub struct Frame<'a> {
    pub bits: usize,
    pub bytes: Digits<'a>,
    pub fresh: u16,
    pub room: usize,
    pub stores: usize,
    ghost within: { room ≤ 9604 },
}

// A read through the port, and the room for its words.
#[derive(Clone, Copy)]
pub struct Read {
    pub at: usize,
    pub count: usize,
    pub room: usize,
    ghost within: { room ≤ 9604 },
}

fn frame_of<'a>(parts: &mut Parts<'a>) -> Option<Frame<'a>> {
    Some(Frame {
        bits: parts.size(MOST)?,
        bytes: parts.hex()?,
        fresh: parts.word()?,
        room: parts.size(ROOM)?,
        stores: parts.size(MOST)?,
    })
}

fn read_of(parts: &mut Parts<'_>) -> Option<Read> {
    Some(Read {
        at: parts.size(MOST)?,
        count: parts.size(MOST)?,
        room: parts.size(ROOM)?,
    })
}

fn write_of<'a>(parts: &mut Parts<'a>) -> Option<Call<'a>> {
    Some(Call::Write {
        at: parts.size(MOST)?,
        words: parts.hex()?,
        stores: parts.size(MOST)?,
    })
}

// An image has at most 9,604 bytes.
fn image<'a>(parts: &mut Parts<'a>) -> Option<Asked<'a>> {
    let bytes = parts.hex()?;
    if bytes.len() > ROOM as usize {
        return None;
    }
    Some(Asked::Image(bytes))
}

fn call_of<'a>(verb: Verb, parts: &mut Parts<'a>) -> Option<Call<'a>> {
    match verb {
        Verb::Power => Some(Call::Power(parts.size(MOST)?)),
        Verb::Frame => Some(Call::Frame(frame_of(parts)?)),
        Verb::Read => Some(Call::Read(read_of(parts)?)),
        Verb::Write => write_of(parts),
        Verb::Ask => Some(Call::Ask),
        Verb::Release => Some(Call::Release),
        Verb::Register => Some(Call::Register),
        _ => None,
    }
}

// What a line asks for, if its parts are those of its first word and no more.
pub fn meant(line: &[u8]) -> Option<Asked<'_>> {
    let mut parts = Parts::of(line);
    let asked = match verbs::verb_of(parts.next()?)? {
        Verb::Image => image(&mut parts)?,
        Verb::Check => Asked::Check,
        Verb::Dump => Asked::Dump,
        verb => Asked::Call(call_of(verb, &mut parts)?),
    };
    parts.end()?;
    Some(asked)
}
