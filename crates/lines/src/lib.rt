// Lines of commands: read, taken apart, answered and written. What bench and gate share.
#![tactic(auto)]

pub mod input;
pub mod output;
pub mod parts;
pub mod verbs;

use input::Lines;
use output::Out;
use std::io;
use std::io::Write;

// Why a line is not answered: it is none of the list or too long, or the output fails.
#[derive(Debug, Drop)]
pub enum Fault {
    BadLine,
    Io(io::Error),
}

impl From<io::Error> for Fault {
    fn from(e: io::Error) -> Fault {
        Fault::Io(e)
    }
}

// What a program holds from line to line.
pub trait Desk {
    // Answers a line of at most 20,000 bytes; a bad line leaves the desk as it was.
    fn answer<P: Print>(&mut self, line: &[u8], out: &mut Out<'_, P>) -> Result<(), Fault>;
}

fn told<D: Desk, P: Print>(
    desk: &mut D,
    line: Result<&[u8], Fault>,
    out: &mut Out<'_, P>,
) -> Result<(), Fault> {
    desk.answer(line?, out)
}

// The answer to a line, or that it is bad.
fn answered<D: Desk, P: Print>(
    desk: &mut D,
    number: u64,
    line: Result<&[u8], Fault>,
    out: &mut Out<'_, P>,
) -> io::Result<()> {
    match told(desk, line, out) {
        Ok(()) => Ok(()),
        Err(Fault::BadLine) => writeln!(out, "bad line {number}"),
        Err(Fault::Io(e)) => Err(e),
    }
}

// Answers the standard input's lines. What is answered before a read fails is written all the same.
pub fn run<R: Print + Input, D: Desk>(rt: &R, desk: &mut D) -> io::Result<()> {
    let mut lines = Lines::new(rt.reader());
    let mut out = Out::new(rt);
    for number in 1..=u64::MAX {
        match lines.next_line() {
            Ok(Some(line)) => answered(desk, number, line, &mut out)?,
            Ok(None) => break,
            Err(e) => {
                out.flush()?;
                return Err(e);
            }
        }
    }
    out.flush()
}
