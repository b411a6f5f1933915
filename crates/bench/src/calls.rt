// What each line does. A bad line leaves everything as it was.
ghost use Rattle.std.specs.Prelude.{◌≤◌};

use crate::asking::{Asked, Call, Frame};
use crate::{asking, writing};
use lines::output::Out;
use lines::parts::Digits;
use lines::{Desk, Fault, output};
use std::io;
use std::io::Write;
use tag::{Outcome, Session};

// The session, the image, and how many bytes that has.
#[derive(Drop)]
pub struct Tag {
    session: Session,
    bytes: [u8; 9604],
    len: usize,
    ghost within: { len ≤ 9604 },
}

// A frame into a room.
fn heard(session: Session, frame: Frame<'_>, image: &mut [u8], room: &mut [u8]) -> Outcome {
    let mut data = [0u8; 10000];
    let n = frame.bytes.read(&mut data);
    session.frame(
        image,
        &data[..n],
        frame.bits,
        frame.fresh,
        room,
        frame.stores,
    )
}

// A write through the port.
fn written(
    session: Session,
    at: usize,
    words: Digits<'_>,
    stores: usize,
    image: &mut [u8],
) -> Outcome {
    let mut data = [0u8; 10000];
    let n = words.read(&mut data);
    session.write(image, at, &data[..n], stores)
}

// Each call of the tag, on the first bytes of the image's array.
fn outcome(
    session: Session,
    call: Call<'_>,
    bytes: &mut [u8; 9604],
    len: usize,
    room: &mut [u8],
) -> Outcome
    requires { len ≤ 9604 }
{
    let image = &mut bytes[..len];
    match call {
        Call::Power(stores) => tag::power_up(image, stores),
        Call::Frame(frame) => heard(session, frame, image, room),
        Call::Ask => session.ask(),
        Call::Release => session.release(),
        Call::Register => session.register(),
        Call::Read(read) => session.read(image, read.at, read.count, room),
        Call::Write { at, words, stores } => written(session, at, words, stores, image),
    }
}

// How many bytes the room of a call has.
fn room_of(call: Call<'_>) -> usize
    ensures { result ≤ 9604 }
{
    match call {
        Call::Frame(frame) => frame.room,
        Call::Read(read) => read.room,
        _ => 0,
    }
}

impl Tag {
    // No image, and the session Off.
    pub fn new() -> Tag {
        Tag {
            session: Session { power: None },
            bytes: [0; 9604],
            len: 0,
        }
    }

    // A line's bytes become the image.
    fn load<W: Write>(&mut self, bytes: Digits<'_>, out: &mut W) -> io::Result<()> {
        self.len = bytes.read(&mut self.bytes);
        let n = self.len;
        writeln!(out, "image {n}")
    }

    fn check<W: Write>(&self, out: &mut W) -> io::Result<()> {
        let n = image::number(image::check(&self.bytes[..self.len]));
        writeln!(out, "answer {n}")
    }

    fn dump<W: Write>(&self, out: &mut W) -> io::Result<()> {
        write!(out, "image ")?;
        output::hex(out, &self.bytes[..self.len])?;
        writeln!(out)
    }

    // A call of the tag, with a room in which every byte is aah.
    fn call<W: Write>(&mut self, call: Call<'_>, out: &mut W) -> io::Result<()> {
        let mut room = [0xaau8; 9604];
        let n = room_of(call);
        let len = self.len;
        let o = outcome(self.session, call, &mut self.bytes, len, &mut room[..n]);
        self.session = o.session;
        if let Call::Register = call {
            return writing::reading(out, o);
        }
        writing::outcome(out, o, &room[..n])
    }

    fn answered<W: Write>(&mut self, asked: Asked<'_>, out: &mut W) -> io::Result<()> {
        match asked {
            Asked::Image(bytes) => self.load(bytes, out),
            Asked::Check => self.check(out),
            Asked::Dump => self.dump(out),
            Asked::Call(call) => self.call(call, out),
        }
    }
}

impl Desk for Tag {
    // A line without bytes, and a comment, have no answer.
    fn answer<P: Print>(&mut self, line: &[u8], out: &mut Out<'_, P>) -> Result<(), Fault> {
        if line.is_empty() || line[0] == b'#' {
            return Ok(());
        }
        let asked = asking::meant(line).ok_or(Fault::BadLine)?;
        self.answered(asked, out)?;
        Ok(())
    }
}
