// The buyer's demands, as theorems over the tag's promises (RULES D1 to D3). Its functions only tie the two: each is an operation of the tag, and promises what the
// demands speak of (`Meets answer_of`). Were an operation's promise another one, the check would refuse it here.
#![tactic(auto)]

ghost use Rattle.std.specs.Prelude.{◌≡◌, []};
ghost use Rattle.image.specs.Check.{meaning, check_of};
ghost use Rattle.demands.specs.Calls.{tag_of, answer_of, Meets};
ghost use Rattle.demands.specs.Calls as call;

use image::{Layout, Refusal};
use tag::{Outcome, Session};

pub fn check(image: &[u8]) -> Result<Layout, Refusal>
    ensures { meaning result ≡ check_of image.now }
{
    image::check(image)
}

pub fn power_up(session: Session, image: &mut [u8], s: usize) -> Outcome
    ensures { Meets answer_of (tag_of session image.old) (call.power_up s) result image.new [] }
{
    tag::power_up(image, s)
}

pub fn frame(
    session: Session,
    image: &mut [u8],
    frame: &[u8],
    n: usize,
    fresh: u16,
    room: &mut [u8],
    s: usize,
) -> Outcome
    ensures { Meets answer_of (tag_of session image.old) (call.frame frame.now n fresh room.old s) result image.new room.new }
{
    session.frame(image, frame, n, fresh, room, s)
}

pub fn ask(session: Session) -> Outcome
    ensures { Meets answer_of (tag_of session []) call.ask result [] [] }
{
    session.ask()
}

pub fn release(session: Session) -> Outcome
    ensures { Meets answer_of (tag_of session []) call.release result [] [] }
{
    session.release()
}

pub fn register(session: Session) -> Outcome
    ensures { Meets answer_of (tag_of session []) call.register result [] [] }
{
    session.register()
}

pub fn read(session: Session, image: &[u8], at: usize, count: usize, room: &mut [u8]) -> Outcome
    ensures { Meets answer_of (tag_of session image.now) (call.read at count room.old) result image.now room.new }
{
    session.read(image, at, count, room)
}

pub fn write(session: Session, image: &mut [u8], at: usize, words: &[u8], s: usize) -> Outcome
    ensures { Meets answer_of (tag_of session image.old) (call.write at words.now s) result image.new [] }
{
    session.write(image, at, words, s)
}
