// Plays how a reader finds the tag, and how a gate writes a loan entry and the power is cut: a line for each number of stores made before the cut, and for each store torn by it (RULES 8.4).
#![tactic(auto)]

ghost use Rattle.std.specs.Prelude.{◌<◌};

mod playing;
mod showing;

use playing::{Half, Image, STEPS, Seen, Step, Unlike};
use showing::{Failed, Sum};
use std::io;
use tag::Session;

// Why the play stops: an answer that the story doesn't have, or the output fails.
#[derive(Debug, Drop)]
enum Stop {
    Unlike(Unlike),
    Io(io::Error),
}

impl From<Unlike> for Stop {
    fn from(unlike: Unlike) -> Stop {
        Stop::Unlike(unlike)
    }
}

impl From<io::Error> for Stop {
    fn from(e: io::Error) -> Stop {
        Stop::Io(e)
    }
}

// A step of finding the tag, with its line; the session after it.
fn step(
    rt: &impl Print,
    s: Step,
    session: Session,
    image: &mut Image,
    room: &mut [u8; 8],
) -> Result<Session, Stop> {
    let o = playing::heard(s, session, image, room);
    let sent = s.sent;
    let answer = u8::from(o.answer);
    if answer != 0 {
        return Err(Stop::Unlike(Unlike::Finding { sent, answer }));
    }
    let words: [u16; 4] = playing::words(room, 0);
    showing::step(rt, sent, o.session, &words[..(o.reply / 16).min(4)])?;
    Ok(o.session)
}

// Finds the tag of the worked image; ACK's reply tells its PC and EPC.
fn found(rt: &impl Print) -> Result<(), Stop> {
    let mut image = playing::laid();
    let mut session = playing::powered(&mut image);
    let mut told = [0; 8];
    for s in STEPS.iter().take(5) {
        session = step(rt, *s, session, &mut image, &mut told)?;
    }
    let mut room = [0; 8];
    step(rt, STEPS[5], session, &mut image, &mut room)?;
    showing::found(rt, &playing::words(&told, 0))?;
    Ok(())
}

// The cut after k stores: what the engine saw.
fn between(rt: &impl Print, k: usize) -> Result<Seen, Stop> {
    let written = playing::write(k)?;
    let cut = playing::looked(k, &written.image)?;
    showing::reached(rt, k, written.stores)?;
    showing::cut(rt, &cut)?;
    Ok(playing::judged(&cut.words))
}

// The cut after k stores and one byte of the next; it has a line where the engine sees another entry than `known`.
fn inside(rt: &impl Print, k: usize, half: Half, known: Option<Seen>) -> Result<Seen, Stop>
    requires { k < 23 }
{
    let image = playing::torn(k, half)?;
    let cut = playing::looked(k, &image)?;
    let seen = playing::judged(&cut.words);
    if known != Some(seen) {
        showing::torn(rt, k + 1, half, playing::torn_word(&image, k))?;
        showing::cut(rt, &cut)?;
    }
    Ok(seen)
}

// The sums stand only under cuts that all went as told.
fn play(rt: &impl Print) -> Result<(), Stop> {
    showing::finding(rt)?;
    found(rt)?;
    showing::heading(rt)?;
    let mut stores = Sum::new("between stores");
    let mut bytes = Sum::new("inside a store");
    for k in 0..24 {
        stores.count(between(rt, k)?);
        if k < 23 {
            let high = inside(rt, k, Half::High, None)?;
            bytes.count(high);
            bytes.count(inside(rt, k, Half::Low, Some(high))?);
        }
    }
    println!(rt; "\n{stores}\n{bytes}")?;
    Ok(())
}

fn main(rt: HostRuntime) -> io::Result<()> {
    match play(&rt) {
        Ok(()) => Ok(()),
        Err(Stop::Unlike(unlike)) => println!(rt; "\nFAILED{}", Failed(unlike)),
        Err(Stop::Io(e)) => Err(e),
    }
}
