// The session lent: the caller's one record goes into each call and holds the new session afterwards (RULES 9.4).
#![tactic(auto)]

ghost use Rattle.std.specs.Prelude.{◌≡◌, []};
ghost use Rattle.tag.specs.Power.{power_up_of};
ghost use Rattle.tag.specs.Table.{frame_of};
ghost use Rattle.tag.specs.Port.{ask_of, release_of, register_of, read_of, write_of};
ghost use Rattle.tag.specs.Result.{result_of, first_of};
ghost use Rattle.stores.specs.Stores.{change_stores};

use tag::{Outcome, Session};

pub fn power_up(session: &mut Session, image: &mut [u8], s: usize) -> Outcome
    ensures { (result_of result image.new [] ≡ first_of (power_up_of image.old s)) × (session.new ≡ result.session) }
{
    let o = tag::power_up(image, s);
    *session = o.session;
    o
}

pub fn ask(session: &mut Session) -> Outcome
    ensures { (result_of result [] [] ≡ first_of (ask_of session.old)) × (session.new ≡ result.session) }
{
    let o = (*session).ask();
    *session = o.session;
    o
}

pub fn release(session: &mut Session) -> Outcome
    ensures { (result_of result [] [] ≡ first_of (release_of session.old)) × (session.new ≡ result.session) }
{
    let o = (*session).release();
    *session = o.session;
    o
}

pub fn register(session: &mut Session) -> Outcome
    ensures { (result_of result [] [] ≡ first_of (register_of session.old)) × (session.new ≡ result.session) }
{
    let o = (*session).register();
    *session = o.session;
    o
}

pub fn read(
    session: &mut Session,
    image: &[u8],
    at: usize,
    count: usize,
    room: &mut [u8],
) -> Outcome
    ensures { (result_of result image.now room.new ≡ first_of (read_of session.old image.now at count room.old)) × (session.new ≡ result.session) }
{
    let o = (*session).read(image, at, count, room);
    *session = o.session;
    o
}

pub fn write(session: &mut Session, image: &mut [u8], at: usize, words: &[u8], s: usize) -> Outcome
    ensures { (result_of result image.new [] ≡ first_of (write_of change_stores session.old image.old at words.now s)) × (session.new ≡ result.session) }
{
    let o = (*session).write(image, at, words, s);
    *session = o.session;
    o
}

pub fn frame(
    session: &mut Session,
    image: &mut [u8],
    frame: &[u8],
    n: usize,
    fresh: u16,
    room: &mut [u8],
    s: usize,
) -> Outcome
    ensures { (result_of result image.new room.new ≡ first_of (frame_of change_stores (record { session = session.old; image = image.old; frame = frame.now; bits = n; fresh = fresh; room = room.old; power = s }))) × (session.new ≡ result.session) }
{
    let o = (*session).frame(image, frame, n, fresh, room, s);
    *session = o.session;
    o
}
