// The radio side: frames (RULES 3, 5 and 11).
ghost use Rattle.std.specs.Prelude.{◌≡◌};
ghost use Rattle.image.specs.Layout.{layout_of};
ghost use Rattle.image.specs.Rules.{Good};
ghost use Rattle.stores.specs.Stores.{change_stores};
ghost use Rattle.states.specs.Numbers.{numbers_in};
ghost use Rattle.tag.specs.Table.{frame_of};
ghost use Rattle.tag.specs.Result.{first_of, result_of};
ghost use Rattle.tag.specs.Records.{session_of, in_numbers};
ghost use Rattle.tag.specs.ByNumber.{noted, Fit, heard_at, outcome_of};

use crate::{Answer, Noted, Outcome, Session, acting, front, inventory, noting, recording};
use frames::Frame;
use states::{Numbers, Record};

// What a frame says to a session that the front lets pass.
fn hearing(
    r: Record,
    image: &mut [u8],
    frame: &[u8],
    n: usize,
    fresh: u16,
    room: &mut [u8],
    s: usize,
) -> Noted
    requires good { Good (layout_of image.old) image.old }
    requires fit { Fit (numbers_in r) }
    ensures { noted result image.new room.new ≡ heard_at (numbers_in r) image.old frame.now n fresh room.old s }
{
    let Some(said) = Frame::of(frame, n) else {
        return noting::refused(r, Answer::Malformed);
    };
    if said.code() < 0xC0 {
        return match said.call() {
            Ok(c) => inventory::calling(r, c, image, frame, fresh, room),
            Err(flaw) => noting::refused(r, Answer::from(flaw)),
        };
    }
    match said.hear() {
        Ok(c) => acting::command(r, c, image, frame, fresh, room, s),
        Err(flaw) => noting::refused(r, Answer::from(flaw)),
    }
}

// A radio frame of n bits to the session of a record, with a fresh random word, a reply room and power for s stores.
pub fn frame(
    r: Record,
    image: &mut [u8],
    frame: &[u8],
    n: usize,
    fresh: u16,
    room: &mut [u8],
    s: usize,
) -> Noted
    ensures { noted result image.new room.new ≡ in_numbers (first_of (frame_of change_stores (record { session = session_of (numbers_in r); image = image.old; frame = frame.now; bits = n; fresh = fresh; room = room.old; power = s }))) }
{
    // The image first: then nothing of the record is kept over its check. What it comes to is asked where it is needed.
    let ready = image::ready(image);
    if !recording::fits(r) {
        return noting::refused(recording::off_record(), front::or_five(front::stop(ready)));
    }
    if let Err(answer) = front::stop(ready) {
        return noting::refused(r, answer);
    }
    if Numbers::from(r).held != 0 {
        return noting::refused(r, Answer::Port);
    }
    hearing(r, image, frame, n, fresh, room, s)
}

// The outcome of what was noted.
fn outcome(o: Noted) -> Outcome
    ensures { result ≡ outcome_of o }
{
    Outcome {
        answer: o.answer,
        session: recording::session_of(o.session),
        reply: o.reply,
        stores: o.stores,
        value: 0,
    }
}

impl Session {
    // A radio frame of n bits, with a fresh random word, a reply room and power for s stores.
    pub fn frame(
        self,
        image: &mut [u8],
        frame: &[u8],
        n: usize,
        fresh: u16,
        room: &mut [u8],
        s: usize,
    ) -> Outcome
        ensures { result_of result image.new room.new ≡ first_of (frame_of change_stores (record { session = self; image = image.old; frame = frame.now; bits = n; fresh = fresh; room = room.old; power = s })) }
    {
        outcome(crate::radio::frame(recording::record_of(self), image, frame, n, fresh, room, s))
    }
}
