// The tag: a session, and every operation on it and an image. Each has its answer for any input (RULES 5).
#![tactic(auto)]

ghost use Rattle.std.specs.Prelude.{◌≡◌};
ghost use Rattle.image.specs.Check.{refusal_number};
ghost use Rattle.frames.specs.Message.{flaw_number};
ghost use Rattle.tag.specs.Session.{number_of};

mod acting;
mod answering;
mod front;
mod inventory;
mod noting;
mod port;
mod radio;
mod recording;
mod starting;

use frames::Flaw;
pub use frames::Round;
use image::Refusal;
pub use port::{read_held, read_words};
pub use radio::frame;
pub use recording::{fits, off_record, record_of, session_of};
pub use starting::power_up;
use states::Record;
pub use states::{Flags, Half, Link, State};

// The port's error register: bit 1, some word wasn't written; bit 0, killed.
#[derive(Clone, Copy, Debug, PartialEq, Eq)]
pub struct Register {
    pub unwritten: bool,
    pub killed: bool,
}

// A session under power.
#[derive(Clone, Copy)]
pub struct Live {
    pub held: bool,
    pub register: Register,
    pub flags: Flags,
    pub state: State,
}

// Off, or under power.
#[derive(Clone, Copy)]
pub struct Session {
    pub power: Option<Live>,
}

// The answers of the table.
#[derive(Clone, Copy, Debug, PartialEq, Eq)]
pub enum Answer {
    Done,
    Short,
    Header,
    Content,
    NoRoom,
    NotReady,
    Port,
    Malformed,
    Checksum,
    Wrong,
    Error,
    PowerLost,
    Password,
    Count,
    Halves,
}

// What an operation hands back: its answer, the new session, the reply's length in bits, the stores made, and the register where it was read.
#[derive(Clone, Copy)]
pub struct Outcome {
    pub answer: Answer,
    pub session: Session,
    pub reply: usize,
    pub stores: usize,
    pub value: usize,
}

// The same of a frame, which reads no register, over the session's record.
#[derive(Clone, Copy)]
pub struct Noted {
    pub answer: Answer,
    pub session: Record,
    pub reply: usize,
    pub stores: usize,
}

// An answer's number in the table (RULES 5).
impl From<Answer> for u8 {
    ghost from_gives = { λ a n. n ≡ number_of a };

    fn from(answer: Answer) -> u8
        ensures { result ≡ number_of answer }
    {
        match answer {
            Answer::Done => 0,
            Answer::Short => 1,
            Answer::Header => 2,
            Answer::Content => 3,
            Answer::NoRoom => 4,
            Answer::NotReady => 5,
            Answer::Port => 6,
            Answer::Malformed => 7,
            Answer::Checksum => 8,
            Answer::Wrong => 9,
            Answer::Error => 10,
            Answer::PowerLost => 11,
            Answer::Password => 12,
            Answer::Count => 13,
            Answer::Halves => 14,
        }
    }
}

// The answer of an image that the check refuses.
impl From<Refusal> for Answer {
    ghost from_gives = { λ r a. number_of a ≡ refusal_number r };

    fn from(refusal: Refusal) -> Answer {
        match refusal {
            Refusal::Short => Answer::Short,
            Refusal::Header => Answer::Header,
            Refusal::Content => Answer::Content,
        }
    }
}

// The answer of a frame that says nothing.
impl From<Flaw> for Answer {
    ghost from_gives = { λ w a. number_of a ≡ flaw_number w };

    fn from(flaw: Flaw) -> Answer {
        match flaw {
            Flaw::Malformed => Answer::Malformed,
            Flaw::Checksum => Answer::Checksum,
        }
    }
}
