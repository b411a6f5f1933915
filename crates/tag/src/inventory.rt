// The commands of inventory, over a session's record (RULES 11.3 to 11.6).
ghost use Rattle.std.specs.Prelude.{◌≡◌, List, ℕ, ◌≤◌, ◌<◌};
ghost use Rattle.image.specs.Layout.{layout_of};
ghost use Rattle.image.specs.Rules.{Good};
ghost use Rattle.states.specs.Numbers.{numbers_in};
ghost use Rattle.tag.specs.ByNumber.{noted, drawn_at, moved_at, rep_at, adjust_at, query_at, ack_at, select_at, calling_at, CallPlaced};

use crate::{Answer, Noted, noting};
use frames::{Calling, Choice};
use states::{Numbers, Record, leaving, stopping};

// Another slot, with these flags and in this round: Reply, and the fresh word told, where it is 0, else Arbitrate.
#[tactic(auto, unfolding(crate::specs::ByNumber::drawn_at))]
fn drawn(
    r: Record,
    flags: u8,
    round: u8,
    q: u8,
    slot: u16,
    fresh: u16,
    image: &[u8],
    room: &mut [u8],
) -> Noted
    ensures { noted result image.now room.new ≡ drawn_at (numbers_in r) flags round q slot fresh image.now room.old }
{
    let v = Numbers::from(r);
    if slot != 0 {
        let next = Numbers {
            flags,
            round,
            q,
            slot,
            ..leaving::emptied(v, 2)
        };
        return noting::done(next, 0, 0);
    }
    let next = Numbers {
        flags,
        round,
        q,
        number: fresh,
        ..leaving::emptied(v, 3)
    };
    noting::give_drawn(r, next, fresh, image, room)
}

// In the round of session k the tag takes another Q and slot, or from Acknowledged on leaves the round.
#[tactic(auto, unfolding(crate::specs::ByNumber::moved_at))]
fn moved(r: Record, k: u8, q: u8, slot: u16, fresh: u16, image: &[u8], room: &mut [u8]) -> Noted
    ensures { noted result image.now room.new ≡ moved_at (numbers_in r) k q slot fresh image.now room.old }
{
    let v = Numbers::from(r);
    if !(stopping::past(v, 1) && v.round == k) {
        return noting::refused(r, Answer::Wrong);
    }
    if stopping::past(v, 3) {
        return noting::done(leaving::left(v), 0, 0);
    }
    drawn(r, v.flags, v.round, q, slot, fresh, image, room)
}

#[tactic(auto, unfolding(crate::specs::ByNumber::rep_at, crate::specs::ByNumber::moved_at))]
fn query_rep(r: Record, k: u8, fresh: u16, image: &[u8], room: &mut [u8]) -> Noted
    ensures { noted result image.now room.new ≡ rep_at (numbers_in r) k fresh image.now room.old }
{
    let v = Numbers::from(r);
    moved(r, k, v.q, states::counted_down(v.slot), fresh, image, room)
}

#[tactic(auto, unfolding(crate::specs::ByNumber::adjust_at, crate::specs::ByNumber::moved_at))]
fn query_adjust(r: Record, k: u8, u: u8, fresh: u16, image: &[u8], room: &mut [u8]) -> Noted
    ensures { noted result image.now room.new ≡ adjust_at (numbers_in r) k u fresh image.now room.old }
{
    if states::is_bad_up_down(u) {
        return noting::refused(r, Answer::Wrong);
    }
    let q = states::adjusted_q(u, Numbers::from(r).q);
    moved(r, k, q, leaving::slot_from(q, fresh), fresh, image, room)
}

#[tactic(auto, unfolding(crate::specs::ByNumber::query_at))]
fn query(
    r: Record,
    sel: u8,
    target: u8,
    k: u8,
    q: u8,
    fresh: u16,
    image: &[u8],
    room: &mut [u8],
) -> Noted
    ensures { noted result image.now room.new ≡ query_at (numbers_in r) sel target k q fresh image.now room.old }
{
    let v = Numbers::from(r);
    if v.state == 7 {
        return noting::refused(r, Answer::Wrong);
    }
    let f = leaving::queried_flags(v, k);
    if !leaving::matches(f, sel, target, k) {
        return noting::done(leaving::idle(v, f), 0, 0);
    }
    drawn(r, f, k, q, leaving::slot_from(q, fresh), fresh, image, room)
}

// The right number brings PC and EPC, a wrong one a fall; between two halves the right one breaks them.
#[tactic(auto, unfolding(crate::specs::ByNumber::ack_at))]
fn ack(r: Record, n: u16, image: &[u8], room: &mut [u8]) -> Noted
    requires { Good (layout_of image.now) image.now }
    ensures { noted result image.now room.new ≡ ack_at (layout_of image.now) (numbers_in r) n image.now room.old }
{
    let v = Numbers::from(r);
    if !stopping::past(v, 2) {
        return noting::refused(r, Answer::Wrong);
    }
    if v.number != n {
        return noting::done(leaving::fallen(v), 0, 0);
    }
    if v.half != 0 {
        return noting::dropped(r, Answer::Halves);
    }
    let at = image::read_layout(image).epc.at as usize + 1;
    let count = bits::word(image, at) as usize / 2048 + 1;
    noting::give_epc(r, leaving::acknowledged(v), at, count, image, room)
}

#[tactic(auto, unfolding(crate::specs::ByNumber::select_at))]
fn select(r: Record, c: Choice, image: &[u8], frame: &[u8], at: usize) -> Noted
    requires good { Good (layout_of image.now) image.now }
    requires at_bound { (at ≤ 51) × (c.bits.count < 256) }
    ensures { (room : List ℕ) → noted result image.now room ≡ select_at (layout_of image.now) (numbers_in r) c at image.now frame.now room }
{
    let v = Numbers::from(r);
    if v.state == 7 {
        return noting::refused(r, Answer::Wrong);
    }
    if states::is_bad_choice(c) {
        return noting::refused(r, Answer::Wrong);
    }
    let matching = states::selects(image, c.bits, frame, at);
    noting::done(leaving::selected(v, c, matching), 0, 0)
}

// A frame of inventory.
pub fn calling(
    r: Record,
    c: Calling,
    image: &[u8],
    frame: &[u8],
    fresh: u16,
    room: &mut [u8],
) -> Noted
    requires good { Good (layout_of image.now) image.now }
    requires call_placed { CallPlaced c }
    ensures { noted result image.now room.new ≡ calling_at (layout_of image.now) (numbers_in r) image.now frame.now fresh room.old c }
{
    match c {
        Calling::QueryRep(k) => query_rep(r, k, fresh, image, room),
        Calling::Ack(n) => ack(r, n, image, room),
        Calling::Query(sel, target, k, q) => query(r, sel, target, k, q, fresh, image, room),
        Calling::QueryAdjust(k, u) => query_adjust(r, k, u, fresh, image, room),
        Calling::Select(x, at) => select(r, x, image, frame, at),
    }
}
