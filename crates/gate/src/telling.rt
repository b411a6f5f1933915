// What answers a line: the depot's own answer, written.
ghost use Rattle.std.specs.Prelude.{◌≤◌, length};

use crate::asking;
use crate::asking::{Asked, Reply, Said};
use depot::Reading;
use lines::output::Out;
use lines::parts::Digits;
use lines::{Desk, Fault, output};
use std::io;
use std::io::Write;

// How many bytes frames are made into.
#[derive(Clone, Copy)]
pub struct Gate {
    room: usize,
}

// The bytes of a command's data, as far as there is room.
fn read(data: Option<Digits<'_>>, room: &mut [u8]) -> usize
    ensures { result ≤ length room.new }
{
    match data {
        Some(digits) => digits.read(room),
        None => 0,
    }
}

// A frame, and what came behind its command.
fn frame<W: Write>(
    out: &mut W,
    bits: usize,
    bytes: &[u8],
    behind: Option<&[u8]>,
) -> io::Result<()> {
    write!(out, "frame {bits} ")?;
    output::hex(out, bytes)?;
    if let Some(rest) = behind {
        write!(out, " ")?;
        out.write_all(rest)?;
    }
    writeln!(out)
}

// A refusal's number.
fn refused<W: Write>(out: &mut W, number: usize) -> io::Result<()> {
    writeln!(out, "refused {number}")
}

// Makes the frame of a command in a room of so many bytes. Data of 512 bytes is beyond every limit, and so is more; no frame takes more than 521.
fn make<W: Write>(room: usize, a: Asked<'_>, out: &mut W) -> io::Result<()> {
    let mut data = [0u8; 512];
    let n = read(a.data, &mut data);
    let mut bytes = [0u8; 521];
    let made = depot::make(
        a.command,
        &data[..n],
        a.number,
        a.cover,
        &mut bytes[..room.min(521)],
    );
    match made {
        Ok(bits) => frame(out, bits, &bytes[..bits.div_ceil(8).min(521)], a.behind),
        Err(refusal) => refused(out, usize::from(refusal)),
    }
}

// So many words from a bit on, as far as there are bytes.
fn words<W: Write>(out: &mut W, count: usize, from: usize, bytes: &[u8; 10000]) -> io::Result<()> {
    write!(out, "words {count} ")?;
    for at in (from..80000).step_by(16).take(count) {
        let w = bits::field(bytes, at, 16);
        output::hex(out, &w.to_be_bytes())?;
    }
    writeln!(out)
}

// Reads a reply to a command.
fn hear<W: Write>(reply: Reply<'_>, out: &mut W) -> io::Result<()> {
    let mut data = [0u8; 512];
    let n = read(reply.to.data, &mut data);
    let mut bytes = [0u8; 10000];
    let k = reply.bytes.read(&mut bytes);
    let told = depot::read(
        reply.to.command,
        &data[..n],
        reply.to.number,
        reply.bits,
        &bytes[..k],
    );
    match told {
        Ok(Reading::Error(code)) => writeln!(out, "error {code:02x}"),
        Ok(Reading::Words { count, at }) => words(out, count, at, &bytes),
        Ok(Reading::Number(w)) => writeln!(out, "number {w:04x}"),
        Ok(Reading::Done) => writeln!(out, "done"),
        Err(refusal) => refused(out, usize::from(refusal)),
    }
}

fn through<W: Write>(line: &[u8], out: &mut W) -> io::Result<()> {
    out.write_all(line)?;
    writeln!(out)
}

impl Gate {
    // The room of the longest frame.
    pub fn new() -> Gate {
        Gate { room: 521 }
    }

    fn set<W: Write>(&mut self, room: usize, out: &mut W) -> io::Result<()> {
        self.room = room;
        writeln!(out, "# room {room}")
    }
}

impl Desk for Gate {
    fn answer<P: Print>(&mut self, line: &[u8], out: &mut Out<'_, P>) -> Result<(), Fault> {
        match asking::meant(line).ok_or(Fault::BadLine)? {
            Said::Through => through(line, out)?,
            Said::Room(room) => self.set(room, out)?,
            Said::Make(asked) => make(self.room, asked, out)?,
            Said::Reply(reply) => hear(reply, out)?,
        }
        Ok(())
    }
}
