// What is written; each text is as wide as its column.
use crate::playing;
use crate::playing::{Cut, Half, Seen, Sent, Unlike};
use std::{fmt, io};
use tag::{Session, State};

// How often the engine saw which entry, in the cuts of a kind.
#[derive(Clone, Copy)]
pub struct Sum {
    kind: &'static str,
    cuts: u64,
    old: u64,
    new: u64,
    mixed: u64,
}

impl Sum {
    pub fn new(kind: &'static str) -> Sum {
        Sum {
            kind,
            cuts: 0,
            old: 0,
            new: 0,
            mixed: 0,
        }
    }

    pub fn count(&mut self, seen: Seen) {
        self.cuts = self.cuts.saturating_add(1);
        match seen {
            Seen::Old => self.old = self.old.saturating_add(1),
            Seen::New => self.new = self.new.saturating_add(1),
            Seen::Mixed => self.mixed = self.mixed.saturating_add(1),
        }
    }
}

impl fmt::Display for Sum {
    fn fmt<W: fmt::Write>(&self, f: &mut fmt::Formatter<W>) -> fmt::Result {
        let Sum {
            kind,
            cuts,
            old,
            new,
            mixed,
        } = *self;
        write!(f, "{cuts} cuts {kind}: {old} old, {new} new, {mixed} mixed")
    }
}

impl fmt::Display for Seen {
    fn fmt<W: fmt::Write>(&self, f: &mut fmt::Formatter<W>) -> fmt::Result {
        f.pad(match self {
            Seen::Old => "old",
            Seen::New => "new",
            Seen::Mixed => "mixed",
        })
    }
}

impl fmt::Display for Sent {
    fn fmt<W: fmt::Write>(&self, f: &mut fmt::Formatter<W>) -> fmt::Result {
        f.pad(match self {
            Sent::Query => "Query",
            Sent::QueryRep => "QueryRep",
            Sent::Ack => "ACK",
            Sent::ReqRn => "Req_RN",
        })
    }
}

// Words in hex, each after a space.
#[derive(Clone, Copy)]
struct Words<'a>(&'a [u16]);

impl fmt::Display for Words<'_> {
    fn fmt<W: fmt::Write>(&self, f: &mut fmt::Formatter<W>) -> fmt::Result {
        for w in self.0 {
            write!(f, " {w:04x}")?;
        }
        Ok(())
    }
}

// A state's name, and its slot where it has one.
#[derive(Clone, Copy)]
struct StateText(State);

impl fmt::Display for StateText {
    fn fmt<W: fmt::Write>(&self, f: &mut fmt::Formatter<W>) -> fmt::Result {
        f.write_str(match self.0 {
            State::Arbitrate(_, slot) => return write!(f, "arbitrate     {slot:>4}"),
            State::Ready => "ready            -",
            State::Reply(_, _) => "reply            -",
            State::Acknowledged(_, _) => "acknowledged     -",
            State::Open(_) => "open             -",
            State::Secured(_) => "secured          -",
            State::Killed => "killed           -",
        })
    }
}

#[derive(Clone, Copy)]
struct SessionText(Session);

impl fmt::Display for SessionText {
    fn fmt<W: fmt::Write>(&self, f: &mut fmt::Formatter<W>) -> fmt::Result {
        match self.0.power {
            None => f.write_str("off              -"),
            Some(live) => write!(f, "{}", StateText(live.state)),
        }
    }
}

// How far a write of 23 stores has come: 14 stage its pairs, one announces them, 7 are the words themselves, and the last ends it.
#[derive(Clone, Copy)]
struct Made(usize);

impl fmt::Display for Made {
    fn fmt<W: fmt::Write>(&self, f: &mut fmt::Formatter<W>) -> fmt::Result {
        let made = self.0;
        match made {
            0 => f.write_str("nothing        "),
            1..=14 => write!(f, "staged {made:>2} of 14"),
            15 => f.write_str("announced      "),
            23 => f.write_str("finished       "),
            _ => write!(f, "words {} of 7   ", made.saturating_sub(15)),
        }
    }
}

// What an answer that the story doesn't have was given to.
#[derive(Clone, Copy)]
pub struct Failed(pub Unlike);

impl fmt::Display for Failed {
    fn fmt<W: fmt::Write>(&self, f: &mut fmt::Formatter<W>) -> fmt::Result {
        match self.0 {
            Unlike::Finding { sent, answer } => {
                write!(f, ": the reader's {sent} was answered {answer}")
            }
            Unlike::Cut { k, step, answer } => {
                write!(f, " at k = {k}: {step} was answered {answer}")
            }
        }
    }
}

// How the tag is found, before the first step.
pub fn finding(rt: &impl Print) -> io::Result<()> {
    rt.print(
        "A bench reader looks for the tag: a Query with Q = 2, then QueryReps until the tag replies. The tag\n",
    )?;
    rt.print(
        "takes its slot from the low two bits of a random word, counts it down at each QueryRep, and replies\n",
    )?;
    rt.print(
        "with a random word when it comes to 0. ACK brings the PC, the EPC and their CRC-16, Req_RN a handle.\n",
    )?;
    rt.print("\nsent          state         slot  the tag replies\n")
}

// A step of finding the tag: what was sent, the session, and the words of the reply.
pub fn step(rt: &impl Print, sent: Sent, after: Session, reply: &[u16]) -> io::Result<()> {
    match sent {
        Sent::Query => rt.print("Query, Q = 2  ")?,
        _ => print!(rt; "{sent:<14}")?,
    }
    print!(rt; "{} ", SessionText(after))?;
    if reply.is_empty() {
        return rt.print(" nothing\n");
    }
    println!(rt; "{}", Words(reply))
}

// What ACK brought: the PC, the EPC, and a CRC-16 that is not shown.
pub fn found(rt: &impl Print, told: &[u16; 4]) -> io::Result<()> {
    let [pc, epc, more, _] = *told;
    println!(rt; "\nThe tag is found: PC {pc:04x}, EPC {epc:04x} {more:04x}.\n")
}

pub fn heading(rt: &impl Print) -> io::Result<()> {
    rt.print(
        "A gate writes a new loan entry over the old one by BlockWrite: seven words, 23 stores on the tag.\n",
    )?;
    rt.print(
        "The power is cut after k of them, or inside the next one. A line without k is such a torn store:\n",
    )?;
    rt.print(
        "its high byte is made and its low byte is not, and the torn word is shown as it stands. The low\n",
    )?;
    rt.print(
        "byte alone is tried as well, and has a line where it leads the engine to another entry. The bank is\n",
    )?;
    rt.print(
        "what the cut leaves in USER itself; then the reader powers up, and its layout engine reads the\n",
    )?;
    let old = Words(&playing::OLD);
    let new = Words(&playing::NEW);
    println!(rt; "entry through the port.\n\nold entry {old}\nnew entry {new}\n")?;
    rt.print(
        " k  stores made      torn  pending  bank   the engine reads                    verdict\n",
    )
}

// A cut between stores, and the stores made before it.
pub fn reached(rt: &impl Print, k: usize, made: usize) -> io::Result<()> {
    print!(rt; "{k:>2}  {}      ", Made(made))
}

// A cut inside a store: the byte made of it, and its word.
pub fn torn(rt: &impl Print, store: usize, half: Half, w: u16) -> io::Result<()> {
    match half {
        Half::High => print!(rt; "    high byte of {store:>2}  {w:04x}"),
        Half::Low => print!(rt; "    low byte of {store:>2}   {w:04x}"),
    }
}

// What a cut leaves, and what the engine read, to the line's end.
pub fn cut(rt: &impl Print, c: &Cut) -> io::Result<()> {
    let Cut {
        pending,
        bank,
        words,
    } = *c;
    print!(rt; "        {pending}  {bank:<6}{}", Words(&words))?;
    match playing::judged(&words) {
        Seen::Mixed => rt.print("  MIXED\n"),
        whole => println!(rt; "  {whole} entry, whole"),
    }
}
