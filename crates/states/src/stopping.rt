// What stops an order, asked of a session's numbers (RULES 3.12 to 3.17 and 11.2 to 11.4).
ghost use Rattle.std.specs.Prelude.{◌≡◌, cond, ◌&&◌, ◌≤◌, eqb, length};
ghost use Rattle.image.specs.Layout.{layout_of};
ghost use Rattle.states.specs.ByNumber.{past as past_of, hears_in, bare_of, wrong_in, halves_in, gate_in};
ghost use Rattle.states.specs.Steps.{stop_row};

use crate::{Asks, Numbers, Part, Who, access_word, asks_of, kill_word};
use frames::Order;

// Why an order is stopped: it is wrong, its halves make a wrong password, or they are broken (answers 9, 12 and 14).
#[derive(Clone, Copy, Debug, PartialEq, Eq)]
pub enum Stop {
    Wrong,
    Password,
    Halves,
}

// A state after the one of number k, and not Killed.
pub fn past(v: Numbers, k: u8) -> bool
    ensures { result ≡ past_of v k }
{
    k < v.state && v.state < 7
}

// A command with this number is for a tag in this state.
fn hears(who: Who, v: Numbers, n: u16) -> bool
    ensures { result ≡ hears_in who v n }
{
    let right = v.number == n;
    match who {
        Who::Everyone => v.state != 7,
        Who::InRound => past(v, 1),
        Who::InSession(session) => past(v, 1) && v.round == session,
        Who::Replied => past(v, 2),
        Who::Acknowledged => past(v, 3) && right,
        Who::Linked => past(v, 4) && right,
        Who::Secured => v.state == 6 && right,
    }
}

// A word or half as sent, without its cover, which is 0 where there is none.
pub fn uncovered(v: Numbers, w: u16) -> u16
    ensures { result ≡ bare_of v w }
{
    w ^ v.cover
}

// Answer 9: wrong number, state, missing cover, zero range or RFU.
fn is_wrong(v: Numbers, n: u16, a: Asks) -> bool
    ensures { result ≡ wrong_in v n a }
{
    !hears(a.who, v, n) || (a.cover && v.covered == 0) || a.bad
}

// Whether the half that waits and the one that comes, without its cover, are these words of a password.
fn second_half(v: Numbers, half: u16, upper: u16, lower: u16) -> Result<(), Stop>
    ensures { stop_row result ≡ cond (eqb v.upper upper && eqb (bare_of v half) lower) 0 12 }
{
    if v.upper == upper && uncovered(v, half) == lower {
        Ok(())
    } else {
        Err(Stop::Password)
    }
}

// A wrong password, or broken halves: while an upper half waits, only its lower half and what is not to this tag leave it be. An ACK breaks them where its number is
// the handle; frames never come here with one: `tag::inventory::ack` answers it.
fn halves(image: &[u8], v: Numbers, part: Part) -> Result<(), Stop>
    requires { 32 ≤ length image.now }
    ensures { stop_row result ≡ halves_in (layout_of image.now) image.now v part }
{
    if v.half == 0 {
        return Ok(());
    }
    let y = image::read_layout(image);
    match part {
        Part::Between => Ok(()),
        Part::Access(h) if v.half == 1 => {
            second_half(v, h, access_word(image, y, 0), access_word(image, y, 1))
        }
        Part::Kill(h) if v.half != 1 => {
            second_half(v, h, kill_word(image, y, 0), kill_word(image, y, 1))
        }
        Part::To(n) if v.number != n => Ok(()),
        _ => Err(Stop::Halves),
    }
}

// Whether an order passes.
pub fn gate(v: Numbers, n: u16, image: &[u8], order: Order) -> Result<(), Stop>
    requires { 32 ≤ length image.now }
    ensures { stop_row result ≡ gate_in (layout_of image.now) image.now v n order }
{
    let a = asks_of(order);
    if is_wrong(v, n, a) {
        return Err(Stop::Wrong);
    }
    halves(image, v, a.part)
}
