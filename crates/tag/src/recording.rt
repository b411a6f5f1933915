// A session as its record of two numbers, and back (RULES 10.1 to 10.3).
ghost use Rattle.std.specs.Prelude.{◌≡◌, ◌<◌};
ghost use Rattle.states.specs.Numbers.{numbers_in, covered_in, cover_in, half_in, upper_in, flags_in};
ghost use Rattle.tag.specs.Port.{bit_of, number_in};
ghost use Rattle.tag.specs.Records.{numbers_on, numbers_of, cover_of, half_of, link_from, is_one, flags_from, register_from, on_of, session_of};
ghost use Rattle.tag.specs.RecordSteps.{off_record, state_from, near_of, no_state, too_large, numbers_fit, idle_fits, bare_fits, state_fits, fits_of};

use crate::{Live, Register, Session};
use frames::Round;
use states::{Flags, Half, Link, Numbers, Record, State};

// A truth value as a number.
pub fn bit(b: bool) -> u8
    ensures { (result ≡ bit_of b) × (result < 2) }
{
    u8::from(b)
}

fn flags_in(f: Flags) -> u8
    ensures { result ≡ flags_in f }
{
    bit(f.s0) + 2 * bit(f.s1) + 4 * bit(f.s2) + 8 * bit(f.s3) + 16 * bit(f.sl)
}

// The register as a number.
pub fn register_in(g: Register) -> u8
    ensures { result ≡ number_in g }
{
    2 * bit(g.unwritten) + bit(g.killed)
}

// Whether there is a cover number, and its value.
fn cover_in(c: Option<u16>) -> (u8, u16)
    ensures { result ≡ (covered_in c, cover_in c) }
{
    match c {
        None => (0, 0),
        Some(n) => (1, n),
    }
}

// Whose half waits, if one does, and its value.
fn half_in(h: Option<Half>) -> (u8, u16)
    ensures { result ≡ (half_in h, upper_in h) }
{
    match h {
        None => (0, 0),
        Some(Half::Access(u)) => (1, u),
        Some(Half::Kill(u)) => (2, u),
    }
}

// The numbers of a session under power.
fn numbers_on(l: Live) -> Numbers
    ensures { result ≡ numbers_on l }
{
    let k = l.state.link();
    let (covered, cover) = cover_in(k.cover);
    let (half, upper) = half_in(k.half);
    Numbers {
        state: l.state.number(),
        held: bit(l.held),
        reg: register_in(l.register),
        covered,
        half,
        round: k.round.session,
        q: k.round.q,
        flags: flags_in(l.flags),
        number: k.handle,
        cover,
        upper,
        slot: l.state.slot(),
    }
}

// The record of Off.
pub fn off_record() -> Record
    ensures { result ≡ off_record }
{
    Record { low: 0, high: 0 }
}

// The record of a session.
pub fn record_of(s: Session) -> Record
    ensures { numbers_in result ≡ numbers_of s.power }
{
    match s.power {
        None => off_record(),
        Some(l) => Record::from(numbers_on(l)),
    }
}

fn cover(covered: u8, number: u16) -> Option<u16>
    ensures { result ≡ cover_of covered number }
{
    if covered == 0 { None } else { Some(number) }
}

fn half(kind: u8, upper: u16) -> Option<Half>
    ensures { result ≡ half_of kind upper }
{
    match kind {
        0 => None,
        1 => Some(Half::Access(upper)),
        _ => Some(Half::Kill(upper)),
    }
}

fn link(v: Numbers) -> Link
    ensures { result ≡ link_from v }
{
    Link {
        round: Round {
            session: v.round,
            q: v.q,
        },
        handle: v.number,
        cover: cover(v.covered, v.cover),
        half: half(v.half, v.upper),
    }
}

// Bit i of a number.
fn is_one(n: u8, i: u8) -> bool
    requires { i < 8 }
    ensures { result ≡ is_one n i }
{
    (n >> i) % 2 == 1
}

fn flags(n: u8) -> Flags
    ensures { result ≡ flags_from n }
{
    Flags {
        s0: is_one(n, 0),
        s1: is_one(n, 1),
        s2: is_one(n, 2),
        s3: is_one(n, 3),
        sl: is_one(n, 4),
    }
}

fn register(n: u8) -> Register
    ensures { result ≡ register_from n }
{
    Register {
        unwritten: is_one(n, 1),
        killed: is_one(n, 0),
    }
}

// A session under power, in this state.
fn live(v: Numbers, state: State) -> Session
    ensures { result ≡ on_of v state }
{
    Session {
        power: Some(Live {
            held: v.held != 0,
            register: register(v.reg),
            flags: flags(v.flags),
            state,
        }),
    }
}

// The state of numbers that have one.
#[tactic(auto, unfolding(crate::specs::RecordSteps::state_from))]
fn state_of(v: Numbers, k: Link) -> State
    ensures { result ≡ state_from v k }
{
    match v.state {
        1 => State::Ready,
        2 => State::Arbitrate(k.round, v.slot),
        3 => State::Reply(k.round, v.number),
        4 => State::Acknowledged(k.round, v.number),
        5 => State::Open(k),
        6 => State::Secured(k),
        _ => State::Killed,
    }
}

// The session under power that the numbers come nearest to.
#[tactic(auto, unfolding(crate::specs::RecordSteps::near_of))]
fn near(v: Numbers) -> Session
    ensures { result ≡ near_of v }
{
    live(v, state_of(v, link(v)))
}

// A cover number and an upper half are 0 where there is none, and the half is one of three.
#[tactic(auto, unfolding(crate::specs::RecordSteps::numbers_fit))]
fn numbers_fit(v: Numbers) -> bool
    ensures { result ≡ numbers_fit v }
{
    (v.covered != 0 || v.cover == 0)
        && if v.half == 0 {
            v.upper == 0
        } else {
            v.half <= 2
        }
}

// No number, cover, half or slot, and no round.
#[tactic(auto, unfolding(crate::specs::RecordSteps::idle_fits))]
fn idle_fits(r: Record) -> bool
    ensures { result ≡ idle_fits r }
{
    r.high == 0 && r.low / 0x100_0000_0000 % 0x1_0000 == 0
}

// A state without a cover holds only what belongs to it: no cover and no half, then by the state.
#[tactic(auto, unfolding(crate::specs::RecordSteps::bare_fits))]
fn bare_fits(r: Record, v: Numbers) -> bool
    ensures { result ≡ bare_fits r v }
{
    r.low / 0x100_0000 % 0x1_0000 == 0
        && match v.state {
            2 => r.high % 0x1_0000_0000_0000 == 0,
            3 | 4 => r.high < 0x1_0000,
            _ => idle_fits(r),
        }
}

// No state under power has this number.
fn no_state(v: Numbers) -> bool
    ensures { result ≡ no_state v }
{
    (v.state == 0) | (7 < v.state)
}

// Port, register, cover or flags past their bits, asked of the whole number at once; | makes no branches, three instructions fewer than ||.
fn too_large(r: Record) -> bool
    ensures { result ≡ too_large (numbers_in r) }
{
    (r.low / 0x200 % 0x80 != 0)
        | (r.low / 0x4_0000 % 0x40 != 0)
        | (r.low / 0x200_0000 % 0x80 != 0)
        | (r.low / 0x2000_0000_0000_0000 != 0)
}

// A state holds only what belongs to it.
#[tactic(auto, unfolding(crate::specs::RecordSteps::state_fits))]
fn state_fits(r: Record, v: Numbers) -> bool
    ensures { result ≡ state_fits r v }
{
    match v.state {
        5 | 6 => v.slot == 0 && numbers_fit(v),
        _ => bare_fits(r, v),
    }
}

// The record is that of a session under power.
#[tactic(auto, unfolding(crate::specs::RecordSteps::fits_of))]
pub fn fits(r: Record) -> bool
    ensures { result ≡ fits_of r }
{
    let v = Numbers::from(r);
    !no_state(v) && !too_large(r) && state_fits(r, v)
}

// The session of a record: Off where the record is no session's under power.
pub fn session_of(r: Record) -> Session
    ensures { result ≡ session_of (numbers_in r) }
{
    if fits(r) {
        near(Numbers::from(r))
    } else {
        Session { power: None }
    }
}
