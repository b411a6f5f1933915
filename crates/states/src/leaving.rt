// What commands leave of a session's numbers (RULES 3.12 to 3.15 and 11.2 to 11.6).
ghost use Rattle.std.specs.Prelude.{◌≡◌};
ghost use Rattle.states.specs.ByNumber.{bare_to, used_in, halved_in, fallen_in, numbered_in, secured_in, killed_in, acknowledged_in, idle_in, left_in, bit_for, flag_in, inverted_in, queried_in, meant as meant_of, matches_in, slot_out, selected_by, selected_in};

use crate::inventory::flag_after;
use crate::stopping::past;
use crate::{Numbers, access_word};
use frames::Choice;
use image::Layout;

// A state without a cover, in a round; port and register stay.
pub fn bare(v: Numbers, state: u8, flags: u8, round: u8, q: u8, number: u16, slot: u16) -> Numbers
    ensures { result ≡ bare_to v state flags round q number slot }
{
    Numbers {
        state,
        covered: 0,
        half: 0,
        round,
        q,
        flags,
        number, // 0 where the state has none
        cover: 0,
        upper: 0,
        slot,
        ..v
    }
}

// A state without a number, a cover or a slot; round, flags, port and register stay.
pub fn emptied(v: Numbers, state: u8) -> Numbers
    ensures { result ≡ bare_to v state v.flags v.round v.q 0 0 }
{
    bare(v, state, v.flags, v.round, v.q, 0, 0)
}

// The cover number used up.
pub fn used(v: Numbers) -> Numbers
    ensures { result ≡ used_in v }
{
    Numbers {
        covered: 0,
        cover: 0,
        ..v
    }
}

// The cover number used up, and a half waiting.
pub fn halved(v: Numbers, half: u8, upper: u16) -> Numbers
    ensures { result ≡ halved_in v half upper }
{
    Numbers {
        half,
        upper,
        ..used(v)
    }
}

// Back to Arbitrate, with the round and the slot that the state has.
pub fn fallen(v: Numbers) -> Numbers
    ensures { result ≡ fallen_in v }
{
    Numbers {
        slot: v.slot,
        ..emptied(v, 2)
    }
}

// Req_RN makes the fresh word the handle, or the cover number.
pub fn numbered(image: &[u8], y: Layout, fresh: u16, v: Numbers) -> Numbers
    ensures { result ≡ numbered_in y image.now fresh v }
{
    if v.state != 4 {
        return Numbers {
            covered: 1,
            cover: fresh,
            ..v
        };
    }
    let zero = access_word(image, y, 0) == 0 && access_word(image, y, 1) == 0;
    Numbers {
        number: fresh,
        ..emptied(v, if zero { 6 } else { 5 })
    }
}

// Secured, by a right Access.
pub fn secured(v: Numbers) -> Numbers
    ensures { result ≡ secured_in v }
{
    Numbers {
        state: 6,
        ..halved(v, 0, 0)
    }
}

pub fn killed(v: Numbers) -> Numbers
    ensures { result ≡ killed_in v }
{
    Numbers {
        round: 0,
        q: 0,
        ..emptied(v, 7)
    }
}

// The state after an ACK with the right number.
pub fn acknowledged(v: Numbers) -> Numbers
    ensures { result ≡ acknowledged_in v }
{
    if v.state == 3 {
        return Numbers {
            number: v.number,
            ..emptied(v, 4)
        };
    }
    used(v)
}

// Ready, with these flags.
pub fn idle(v: Numbers, flags: u8) -> Numbers
    ensures { result ≡ idle_in v flags }
{
    Numbers {
        flags,
        round: 0,
        q: 0,
        ..emptied(v, 1)
    }
}

// The bit of flag t, 0 to 4, among the flags.
fn bit_of(t: u8) -> u8
    ensures { result ≡ bit_for t }
{
    if t < 5 { 1 << t } else { 0 }
}

// The flag of session t, 0 to 3, or SL.
fn flag_at(f: u8, t: u8) -> bool
    ensures { result ≡ flag_in f t }
{
    if t < 4 {
        return f & bit_of(t) != 0;
    }
    f & 16 != 0
}

fn inverted(f: u8, t: u8) -> u8
    ensures { result ≡ inverted_in f t }
{
    f ^ bit_of(t)
}

// Ready, with the flag of the round's session inverted: a QueryAdjust or a QueryRep leaves the round.
pub fn left(v: Numbers) -> Numbers
    ensures { result ≡ left_in v }
{
    idle(v, inverted(v.flags, v.round))
}

// The flags after a Query's first step.
pub fn queried_flags(v: Numbers, session: u8) -> u8
    ensures { result ≡ queried_in v session }
{
    if past(v, 3) && v.round == session {
        inverted(v.flags, session)
    } else {
        v.flags
    }
}

// A Query's Sel means the tag.
fn meant(sel: u8, sl: bool) -> bool
    ensures { result ≡ meant_of sel sl }
{
    match sel {
        0 | 1 => true,
        2 => !sl,
        3 => sl,
        _ => false,
    }
}

// The tag matches a Query.
pub fn matches(f: u8, sel: u8, target: u8, session: u8) -> bool
    ensures { result ≡ matches_in f sel target session }
{
    meant(sel, f & 16 != 0)
        && if flag_at(f, session) {
            target == 1
        } else {
            target == 0
        }
}

// A slot from the low Q bits of the fresh word; a Q above 15 takes all of them.
pub fn slot_from(q: u8, fresh: u16) -> u16
    ensures { result ≡ slot_out q fresh }
{
    if 15 < q {
        return fresh;
    }
    fresh % (1 << q)
}

// The flags after a Select: the target's is as the action makes it.
fn selected_flags(f: u8, target: u8, action: u8, matching: bool) -> u8
    ensures { result ≡ selected_by f target action matching }
{
    let bit = bit_of(target);
    let old = f & bit != 0;
    let new = flag_after(target, action, matching, old);
    if old == new { f } else { f ^ bit }
}

// What a Select leaves.
pub fn selected(v: Numbers, c: Choice, matching: bool) -> Numbers
    ensures { result ≡ selected_in v c matching }
{
    idle(v, selected_flags(v.flags, c.target, c.action, matching))
}
