// The ends of the answer table for a frame, over a session's record: refused, a reply, stores and a reply (RULES 5).
ghost use Rattle.std.specs.Prelude.{◌≡◌, List, [], ◌∷◌, ℕ, ◌+◌, ◌*◌, ◌≤◌, ◌<◌, ◌^◌, length};
ghost use Rattle.bits.specs.Words.{store as store_of};
ghost use Rattle.bits.specs.Below.{below};
ghost use Rattle.changes.specs.Changes.{Holds, or_to};
ghost use Rattle.stores.specs.Steps.{word_from};
ghost use Rattle.replies.specs.declared.Reply.TheVariants as reply;
ghost use Rattle.states.specs.Numbers.{numbers_in};
ghost use Rattle.states.specs.ByNumber.{used_in, fallen_in};
ghost use Rattle.states.specs.Steps.{stop_number};
ghost use Rattle.tag.specs.declared.Answer.TheVariants as Answer;
ghost use Rattle.tag.specs.ByNumber.{noted, refused_at, error_at, tell_at, store_at, finish_at, gated_at};

use crate::{Answer, Noted, answering, recording};
use states::stopping::Stop;
use states::{Numbers, Record, leaving};

// Everything stays.
pub fn refused(r: Record, answer: Answer) -> Noted
    ensures { result ≡ refused_at r answer }
{
    Noted {
        answer,
        session: r,
        reply: 0,
        stores: 0,
    }
}

// Another session, with a reply and stores or without.
pub fn done(v: Numbers, reply: usize, stores: usize) -> Noted
    ensures { (result.answer ≡ Answer.Done) × (numbers_in result.session ≡ v) × (result.reply ≡ reply) × (result.stores ≡ stores) }
{
    Noted {
        answer: Answer::Done,
        session: Record::from(v),
        reply,
        stores,
    }
}

// Back to Arbitrate: the password is wrong, or its halves are broken.
pub fn dropped(r: Record, answer: Answer) -> Noted
    ensures { (result.answer ≡ answer) × (numbers_in result.session ≡ fallen_in (numbers_in r)) × (result.reply ≡ 0) × (result.stores ≡ 0) }
{
    Noted {
        session: Record::from(leaving::fallen(Numbers::from(r))),
        ..refused(r, answer)
    }
}

// A command that the gate stopped.
pub fn stopped(r: Record, stop: Stop) -> Noted
    ensures { (m room : List ℕ) → noted result m room ≡ gated_at (stop_number stop) (numbers_in r) m room }
{
    match stop {
        Stop::Wrong => refused(r, Answer::Wrong),
        Stop::Password => dropped(r, Answer::Password),
        Stop::Halves => dropped(r, Answer::Halves),
    }
}

// An error's reply; the cover number is used up.
#[tactic(auto, unfolding(crate::specs::Steps::error_by))]
pub fn give_error(r: Record, handle: u16, e: u8, image: &[u8], room: &mut [u8]) -> Noted
    ensures { noted result image.now room.new ≡ error_at (numbers_in r) handle image.now room.old e }
{
    if room.len() < 6 {
        return refused(r, Answer::NoRoom);
    }
    replies::put_error(room, e, handle);
    Noted {
        answer: Answer::Error,
        session: Record::from(leaving::used(Numbers::from(r))),
        reply: 41,
        stores: 0,
    }
}

// A number drawn, told without a CRC.
#[tactic(auto, unfolding(crate::specs::Steps::done_by))]
pub fn give_drawn(r: Record, next: Numbers, number: u16, image: &[u8], room: &mut [u8]) -> Noted
    ensures { noted result image.now room.new ≡ tell_at (numbers_in r) image.now room.old (reply.Drawn number) next }
{
    if room.len() < 2 {
        return refused(r, Answer::NoRoom);
    }
    replies::put_drawn(room, number);
    done(next, 16, 0)
}

// PC and EPC, and no store.
#[tactic(auto, unfolding(crate::specs::Steps::done_by))]
pub fn give_epc(
    r: Record,
    next: Numbers,
    at: usize,
    count: usize,
    image: &[u8],
    room: &mut [u8],
) -> Noted
    requires { (2 * (at + count) ≤ length image.now) × (count < 65536) }
    ensures { noted result image.now room.new ≡ tell_at (numbers_in r) image.now room.old (reply.Epc at count) next }
{
    let n = 16 * count + 16;
    if room.len() < (n + 7) / 8 {
        return refused(r, Answer::NoRoom);
    }
    replies::put_epc(room, image, at, count);
    done(next, n, 0)
}

// A number, and no store.
#[tactic(auto, unfolding(crate::specs::Steps::done_by))]
pub fn give_number(r: Record, next: Numbers, number: u16, image: &[u8], room: &mut [u8]) -> Noted
    ensures { noted result image.now room.new ≡ tell_at (numbers_in r) image.now room.old (reply.Number number) next }
{
    if room.len() < 4 {
        return refused(r, Answer::NoRoom);
    }
    replies::put_number(room, number);
    done(next, 32, 0)
}

// Words of the image, and no store; the cover number is used up.
#[tactic(auto, unfolding(crate::specs::Steps::done_by))]
pub fn give_words(
    r: Record,
    handle: u16,
    at: usize,
    count: usize,
    image: &[u8],
    room: &mut [u8],
) -> Noted
    requires { (2 * (at + count) ≤ length image.now) × (count < 65536) }
    ensures { noted result image.now room.new ≡ tell_at (numbers_in r) image.now room.old (reply.Words at count handle) (used_in (numbers_in r)) }
{
    let n = 16 * count + 33;
    if room.len() < (n + 7) / 8 {
        return refused(r, Answer::NoRoom);
    }
    replies::put_words(room, image, at, count, handle);
    done(leaving::used(Numbers::from(r)), n, 0)
}

// After `made` of the stores that were needed: too little power, or done.
#[tactic(auto, unfolding(crate::specs::ByNumber::finish_at))]
fn finish(
    next: Numbers,
    handle: u16,
    image: &[u8],
    room: &mut [u8],
    made: usize,
    need: usize,
    s: usize,
) -> Noted
    requires { 5 ≤ length room.old }
    ensures { noted result image.now room.new ≡ finish_at handle next image.now room.old made need s }
{
    if s < need {
        return Noted {
            answer: Answer::PowerLost,
            session: recording::off_record(),
            reply: 0,
            stores: made,
        };
    }
    replies::put_success(room, image, handle);
    done(next, 33, made)
}

// Four stores, and not one that is handed the plan: told apart once more, a plan costs a Write 36 instructions of 818.

// One word stored.
pub fn store_word(
    r: Record,
    next: Numbers,
    handle: u16,
    at: usize,
    v: u16,
    work: usize,
    image: &mut [u8],
    room: &mut [u8],
    s: usize,
) -> Noted
    requires { Holds work at 1 (length image.old) }
    ensures { noted result image.new room.new ≡ store_at (numbers_in r) handle next work image.old room.old s (store_of at v ∷ []) }
{
    if room.len() < 5 {
        return refused(r, Answer::NoRoom);
    }
    let made = changes::store_one(image, work, at, v, s);
    finish(next, handle, image, room, made, 5, s)
}

// Words that a frame brings from bit `from` on.
pub fn store_bits(
    r: Record,
    next: Numbers,
    handle: u16,
    at: usize,
    n: usize,
    frame: &[u8],
    from: usize,
    work: usize,
    image: &mut [u8],
    room: &mut [u8],
    s: usize,
) -> Noted
    requires { Holds work at n (length image.old) × (from < 2 ^ 61) }
    ensures { noted result image.new room.new ≡ store_at (numbers_in r) handle next work image.old room.old s (below (word_from at frame.now from) n) }
{
    if room.len() < 5 {
        return refused(r, Answer::NoRoom);
    }
    let made = changes::store_bits(image, work, at, n, frame, from, s);
    finish(next, handle, image, room, made, answering::needed(n), s)
}

// Zeros.
pub fn store_zeros(
    r: Record,
    next: Numbers,
    handle: u16,
    at: usize,
    n: usize,
    work: usize,
    image: &mut [u8],
    room: &mut [u8],
    s: usize,
) -> Noted
    requires { Holds work at n (length image.old) }
    ensures { noted result image.new room.new ≡ store_at (numbers_in r) handle next work image.old room.old s (below (λ j. store_of (at + j) 0) n) }
{
    if room.len() < 5 {
        return refused(r, Answer::NoRoom);
    }
    let made = changes::store_zeros(image, work, at, n, s);
    finish(next, handle, image, room, made, answering::needed(n), s)
}

// Words with a frame's bits added.
pub fn store_mask(
    r: Record,
    next: Numbers,
    handle: u16,
    at: usize,
    n: usize,
    frame: &[u8],
    from: usize,
    work: usize,
    image: &mut [u8],
    room: &mut [u8],
    s: usize,
) -> Noted
    requires { Holds work at n (length image.old) × (from < 2 ^ 61) × (n ≤ 16) }
    ensures { noted result image.new room.new ≡ store_at (numbers_in r) handle next work image.old room.old s (below (or_to image.old frame.now at from) n) }
{
    if room.len() < 5 {
        return refused(r, Answer::NoRoom);
    }
    let made = changes::store_mask(image, work, at, n, frame, from, s);
    finish(next, handle, image, room, made, answering::needed(n), s)
}
