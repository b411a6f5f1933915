// The worked image, the gate and the layout engine, over the tag's public operations.
ghost use Rattle.std.specs.Prelude.{◌+◌, ◌<◌, length};

use std::array;
use tag::{Outcome, Session};

// Where USER and WORK stand in the worked image (RULES 6.1).
const USER: usize = 28;

const WORK: usize = 45;

pub const OLD: [u16; 7] = [3, 3, 6, 10, 24, 57, 0x1811];

pub const NEW: [u16; 7] = [2, 3, 5, 12, 72, 0x1a25, 0];

pub type Image = [u8; 156];

// Which entry some words are: one of the two whole, or neither.
#[derive(Clone, Copy, Debug, PartialEq, Eq)]
pub enum Seen {
    Old,
    New,
    Mixed,
}

// What a reader sends to find the tag.
#[derive(Clone, Copy, Debug, PartialEq, Eq)]
pub enum Sent {
    Query,
    QueryRep,
    Ack,
    ReqRn,
}

// A step of finding the tag: what the reader sends, and the word that the tag draws.
#[derive(Clone, Copy)]
pub struct Step {
    pub sent: Sent,
    pub drawn: u16,
}

// Q = 2 in session S0, and the number 613ah.
pub const STEPS: [Step; 6] = [
    Step {
        sent: Sent::Query,
        drawn: 0x7ad7,
    },
    Step {
        sent: Sent::QueryRep,
        drawn: 0x2c90,
    },
    Step {
        sent: Sent::QueryRep,
        drawn: 0xe41b,
    },
    Step {
        sent: Sent::QueryRep,
        drawn: 0x613a,
    },
    Step {
        sent: Sent::Ack,
        drawn: 0,
    },
    Step {
        sent: Sent::ReqRn,
        drawn: 0xa5c3,
    },
];

// The two bytes of a word; the high one stands first.
#[derive(Clone, Copy, Debug, PartialEq, Eq)]
pub enum Half {
    High,
    Low,
}

// An answer that the story doesn't have: to a step of finding the tag, or to one of a cut.
#[derive(Clone, Copy, Debug)]
pub enum Unlike {
    Finding {
        sent: Sent,
        answer: u8,
    },
    Cut {
        k: usize,
        step: &'static str,
        answer: u8,
    },
}

// The image after a write with power for some stores, and the stores made.
#[derive(Clone, Copy)]
pub struct Written {
    pub image: Image,
    pub stores: usize,
}

// What a cut leaves: the pending count in WORK, the entry in USER, and the words that the engine reads then.
#[derive(Clone, Copy)]
pub struct Cut {
    pub pending: u16,
    pub bank: Seen,
    pub words: [u16; 7],
}

fn put(image: &mut Image, at: usize, words: &[u16])
    requires { at + length words.now < 65536 }
{
    for (i, w) in words.iter().enumerate() {
        bits::store_word(image, at + i, *w);
    }
}

// Lays the worked image on zeros: the header, RESERVED, EPC, TID, and the old entry in USER.
pub fn laid() -> Image {
    let mut image = [0; 156];
    let header = [7, 4, 16, 2, 18, 4, 22, 4, 26, 2, 28, 16, 44, 1, 45, 33];
    put(&mut image, 0, &header);
    put(&mut image, 18, &[0x4b49, 0x4c4c, 0, 0]);
    put(&mut image, 22, &[0x9297, 0x1000, 0x3034, 0x0257]);
    put(&mut image, 26, &[0xe200, 0x6001]);
    put(&mut image, USER, &OLD);
    image
}

// So many words, from word `at` on.
pub fn words<const N: usize>(bytes: &[u8], at: usize) -> [u16; N]
    requires { at + N < 65536 }
{
    let mut words = [0; N];
    for (i, w) in words.iter_mut().enumerate() {
        *w = bits::word(bytes, at + i);
    }
    words
}

pub fn judged(words: &[u16; 7]) -> Seen {
    if *words == OLD {
        Seen::Old
    } else if *words == NEW {
        Seen::New
    } else {
        Seen::Mixed
    }
}

// Power-up, before a reader looks for the tag.
pub fn powered(image: &mut Image) -> Session {
    tag::power_up(image, 100).session
}

// The frame of what is sent, and how many bits that has.
fn frame_of(s: Sent) -> ([u8; 5], usize) {
    match s {
        Sent::Query => ([0x80, 0x01, 0x08, 0, 0], 22),
        Sent::QueryRep => ([0, 0, 0, 0, 0], 4),
        Sent::Ack => ([0x58, 0x4e, 0x80, 0, 0], 18),
        Sent::ReqRn => ([0xc1, 0x61, 0x3a, 0x8d, 0xa6], 40),
    }
}

// A step of finding the tag, its reply to the room.
pub fn heard(s: Step, session: Session, image: &mut Image, room: &mut [u8; 8]) -> Outcome {
    let (frame, bits) = frame_of(s.sent);
    session.frame(image, &frame, bits, s.drawn, room, 0)
}

// The session of the tag found; a step that is refused leaves Req_RN refused too.
fn found(image: &mut Image) -> Session {
    let mut room = [0; 8];
    let mut session = powered(image);
    for s in STEPS {
        session = heard(s, session, image, &mut room).session;
    }
    session
}

// The number that a write of 23 stores is answered with power for k of them.
fn expected(k: usize) -> u8 {
    if k < 23 { 11 } else { 0 }
}

// The gate finds the tag of the worked image, which gives it the handle A5C3h, and writes the new entry by BlockWrite with power for k stores.
pub fn write(k: usize) -> Result<Written, Unlike> {
    let order =
        b"\xc7\xc0\x01\xc0\x00\x80\x00\xc0\x01\x40\x03\x00\x12\x06\x89\x40\x00\x29\x70\xfa\x37\x00";
    let mut image = laid();
    let mut room = [0; 8];
    let o = found(&mut image).frame(&mut image, order, 170, 0, &mut room, k);
    let answer = u8::from(o.answer);
    if answer != expected(k) {
        let step = "the gate's BlockWrite";
        return Err(Unlike::Cut { k, step, answer });
    }
    Ok(Written {
        image,
        stores: o.stores,
    })
}

// The word that the write's store k + 1 goes to: 14 words of pairs, the count, 7 words of USER, the count (RULES 2.1).
fn next(k: usize) -> usize
    ensures { result < 78 }
{
    match k {
        0..=13 => WORK + 1 + k,
        15..=21 => USER + (k - 15),
        _ => WORK,
    }
}

// An image with power for k stores, torn inside the next: one byte is as with power for k + 1.
pub fn torn(k: usize, half: Half) -> Result<Image, Unlike>
    requires { k < 23 }
{
    let mut image = write(k)?.image;
    let further = write(k + 1)?.image;
    let j = match half {
        Half::High => 2 * next(k),
        Half::Low => 2 * next(k) + 1,
    };
    bits::store_byte(&mut image, j, bits::byte(&further, j));
    Ok(image)
}

// The word that store k + 1 goes to, as it stands.
pub fn torn_word(image: &Image, k: usize) -> u16 {
    bits::word(image, next(k))
}

// What the cut leaves; then the reader powers up, and the engine reads the entry.
pub fn looked(k: usize, left: &Image) -> Result<Cut, Unlike> {
    let mut image = *left;
    let mut room = [0; 14];
    let held = powered(&mut image).ask().session;
    let answer = u8::from(held.read(&image, 0, 7, &mut room).answer);
    if answer != 0 {
        let step = "the engine's read";
        return Err(Unlike::Cut { k, step, answer });
    }
    Ok(Cut {
        pending: bits::word(left, WORK),
        bank: judged(&words(left, USER)),
        words: words(&room, 0),
    })
}
