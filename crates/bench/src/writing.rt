// How a call's outcome and the session are written.
use lines::output;
use std::io::Write;
use std::{fmt, io};
use tag::{Flags, Half, Link, Live, Outcome, Register, Round, Session, State};

// A cover number, if there is one.
#[derive(Clone, Copy)]
struct CoverText(Option<u16>);

impl fmt::Display for CoverText {
    fn fmt<W: fmt::Write>(&self, f: &mut fmt::Formatter<W>) -> fmt::Result {
        match self.0 {
            None => f.write_str("-"),
            Some(w) => write!(f, "{w:04x}"),
        }
    }
}

// The half of a password that waits, if one does.
#[derive(Clone, Copy)]
struct HalfText(Option<Half>);

impl fmt::Display for HalfText {
    fn fmt<W: fmt::Write>(&self, f: &mut fmt::Formatter<W>) -> fmt::Result {
        match self.0 {
            None => f.write_str("-"),
            Some(Half::Access(w)) => write!(f, "access:{w:04x}"),
            Some(Half::Kill(w)) => write!(f, "kill:{w:04x}"),
        }
    }
}

// The handle, the cover number and the waiting half.
#[derive(Clone, Copy)]
struct LinkText(Link);

impl fmt::Display for LinkText {
    fn fmt<W: fmt::Write>(&self, f: &mut fmt::Formatter<W>) -> fmt::Result {
        let Link {
            handle,
            cover,
            half,
            ..
        } = self.0;
        write!(f, "{handle:04x} {} {}", CoverText(cover), HalfText(half))
    }
}

// A state, and the numbers that it holds beside its round.
#[derive(Clone, Copy)]
struct StateText(State);

impl fmt::Display for StateText {
    fn fmt<W: fmt::Write>(&self, f: &mut fmt::Formatter<W>) -> fmt::Result {
        match self.0 {
            State::Ready => f.write_str("ready - - -"),
            State::Arbitrate(_, _) => f.write_str("arbitrate - - -"),
            State::Reply(_, w) => write!(f, "reply {w:04x} - -"),
            State::Acknowledged(_, w) => write!(f, "acknowledged {w:04x} - -"),
            State::Open(link) => write!(f, "open {}", LinkText(link)),
            State::Secured(link) => write!(f, "secured {}", LinkText(link)),
            State::Killed => f.write_str("killed - - -"),
        }
    }
}

// The register's two bits as a number.
fn bits_of(r: Register) -> u8 {
    u8::from(r.unwritten) * 2 + u8::from(r.killed)
}

// A round's Q and session.
#[derive(Clone, Copy)]
struct RoundText(Round);

impl fmt::Display for RoundText {
    fn fmt<W: fmt::Write>(&self, f: &mut fmt::Formatter<W>) -> fmt::Result {
        let Round { q, session, .. } = self.0;
        write!(f, "{q} s{session}")
    }
}

// Slot, Q and round of a state.
#[derive(Clone, Copy)]
struct PlaceText(State);

impl fmt::Display for PlaceText {
    fn fmt<W: fmt::Write>(&self, f: &mut fmt::Formatter<W>) -> fmt::Result {
        match self.0 {
            State::Ready | State::Killed => f.write_str("- - -"),
            State::Arbitrate(round, slot) => write!(f, "{slot} {}", RoundText(round)),
            State::Reply(round, _) | State::Acknowledged(round, _) => {
                write!(f, "- {}", RoundText(round))
            }
            State::Open(link) | State::Secured(link) => write!(f, "- {}", RoundText(link.round)),
        }
    }
}

// An inventoried flag.
fn letter(is_b: bool) -> char {
    if is_b { 'B' } else { 'A' }
}

// The inventoried flags, and SL.
#[derive(Clone, Copy)]
struct FlagsText(Flags);

impl fmt::Display for FlagsText {
    fn fmt<W: fmt::Write>(&self, f: &mut fmt::Formatter<W>) -> fmt::Result {
        let Flags { s0, s1, s2, s3, sl } = self.0;
        for flag in [s0, s1, s2, s3] {
            f.write_char(letter(flag))?;
        }
        f.write_char(if sl { 'S' } else { '-' })
    }
}

// A session under power: the state, whether the port is held, the register, the place and the flags.
#[derive(Clone, Copy)]
struct LiveText(Live);

impl fmt::Display for LiveText {
    fn fmt<W: fmt::Write>(&self, f: &mut fmt::Formatter<W>) -> fmt::Result {
        let Live {
            held,
            register,
            flags,
            state,
        } = self.0;
        let port = if held { "held" } else { "free" };
        let bits = bits_of(register);
        write!(f, "{} {port} {bits} ", StateText(state))?;
        write!(f, "{} {}", PlaceText(state), FlagsText(flags))
    }
}

#[derive(Clone, Copy)]
struct SessionText(Session);

impl fmt::Display for SessionText {
    fn fmt<W: fmt::Write>(&self, f: &mut fmt::Formatter<W>) -> fmt::Result {
        match self.0.power {
            None => f.write_str("off - - - free 0 - - - -"),
            Some(live) => write!(f, "{}", LiveText(live)),
        }
    }
}

// A call's answer, stores and reply, with the room afterwards.
fn call<W: Write>(out: &mut W, o: Outcome, room: &[u8]) -> io::Result<()> {
    let answer = u8::from(o.answer);
    let Outcome { stores, reply, .. } = o;
    write!(out, "answer {answer} stores {stores} reply {reply} ")?;
    output::hex(out, room)
}

// The session afterwards, to the line's end.
fn ending<W: Write>(out: &mut W, o: Outcome) -> io::Result<()> {
    writeln!(out, " session {}", SessionText(o.session))
}

// A call's whole line.
pub fn outcome<W: Write>(out: &mut W, o: Outcome, room: &[u8]) -> io::Result<()> {
    call(out, o, room)?;
    ending(out, o)
}

// The line of the register's reading: its value stands there where the answer is 0.
pub fn reading<W: Write>(out: &mut W, o: Outcome) -> io::Result<()> {
    call(out, o, b"")?;
    if u8::from(o.answer) == 0 {
        let value = o.value;
        write!(out, " value {value}")?;
    }
    ending(out, o)
}
