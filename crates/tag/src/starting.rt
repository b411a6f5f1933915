// Power-up (RULES 2.6 and 2.7).
ghost use Rattle.std.specs.Prelude.{◌≡◌, [], length};
ghost use Rattle.image.specs.Rules.{Good};
ghost use Rattle.stores.specs.Stores.{power_stores};
ghost use Rattle.tag.specs.Session.{off_session, new_session};
ghost use Rattle.tag.specs.Power.{power_up_of};
ghost use Rattle.tag.specs.Steps.{stopped_at, started, first_in};
ghost use Rattle.tag.specs.Result.{first_of, result_of};

use crate::{Answer, Live, Outcome, Register, Session, answering, front};
use image::Layout;
use states::{Flags, State};

pub fn off() -> Session
    ensures { result ≡ off_session }
{
    Session { power: None }
}

// A new session under power.
fn fresh(state: State) -> Session
    ensures { result ≡ new_session state }
{
    Session {
        power: Some(Live {
            state,
            held: false,
            register: Register {
                unwritten: false,
                killed: false,
            },
            flags: Flags {
                s0: false,
                s1: false,
                s2: false,
                s3: false,
                sl: false,
            },
        }),
    }
}

// A refused power-up: nothing is changed, and the session is Off.
pub fn stopped(answer: Answer, stores: usize) -> Outcome
    ensures { result ≡ stopped_at answer stores }
{
    Outcome {
        stores,
        ..answering::unmoved(off(), answer)
    }
}

// The stores that a power-up needs.
fn needed_up(image: &[u8], y: Layout) -> usize
    ensures { result ≡ length (power_stores y image.now) }
{
    let c = bits::word(image, y.work.at as usize) as usize;
    if c == 0 { 1 } else { c + 2 }
}

// The first session of an image.
fn first_session(image: &[u8], y: Layout) -> Session
    ensures { result ≡ new_session (first_in y image.now) }
{
    let killed = bits::word(image, y.status.at as usize + 1) != 0;
    fresh(if killed { State::Killed } else { State::Ready })
}

// Power-up of a good image.
#[tactic(auto, unfolding(crate::specs::Steps::started))]
fn start(image: &mut [u8], y: Layout, s: usize) -> Outcome
    requires { Good y image.old }
    ensures { result_of result image.new [] ≡ started y image.old s }
{
    let n = needed_up(image, y);
    let made = stores::power(image, y, s);
    if s < n {
        return stopped(Answer::PowerLost, made);
    }
    answering::done(first_session(image, y), 0, made, 0)
}

// Power-up, for any bytes and any power.
pub fn power_up(image: &mut [u8], s: usize) -> Outcome
    ensures { result_of result image.new [] ≡ first_of (power_up_of image.old s) }
{
    if let Err(answer) = front::checked(image) {
        return stopped(answer, 0);
    }
    start(image, image::read_layout(image), s)
}
