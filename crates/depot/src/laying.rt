// How a frame is laid out (RULES 12.2 and 12.3): as numbers of so many bits, before any bit is written.
ghost use Rattle.std.specs.Prelude.{◌≡◌, true, ◌*◌, ◌/◌, ◌^◌, ◌≤◌, ◌<◌};
ghost use Rattle.std.specs.Int.Bits.{bit_xor};
ghost use Rattle.depot.specs.Limits.{within};
ghost use Rattle.depot.specs.Steps.{field, ebv, plain, placed, query_of, select_of, layout_of, Narrow, total_of};

use crate::{Command, Place, Round};
use fields::Field;

// A frame: three numbers, where it has a pointer that in the middle; so many bits of the payload; a number; and the check by its bits, which
// count: 0, 5 or 16.
#[derive(Clone, Copy, Default)]
pub struct Layout {
    pub front: Field,
    pub middle: Field,
    pub back: Field,
    pub body: usize,
    pub tail: Field,
    pub check: usize,
}

fn field(value: u32, bits: usize) -> Field
    ensures { result ≡ field value bits }
{
    Field { value, bits }
}

// A pointer in its shortest form.
fn ebv(p: u32) -> Field
    ensures { result ≡ ebv p }
{
    let last = p % 128;
    let middle = (128 + p / 128 % 128) * 256 + last;
    match p {
        0..128 => field(last, 8),
        128..16384 => field(middle, 16),
        _ => field((128 + p / 16384 % 128) * 65536 + middle, 24),
    }
}

// A word or half as it is sent.
fn covered(word: u16, cover: u16) -> u32
    ensures { result ≡ bit_xor word cover }
{
    u32::from(word) ^ u32::from(cover)
}

// A frame of one number.
fn plain(value: u32, bits: usize) -> Layout
    ensures { result ≡ plain value bits 0 }
{
    Layout {
        front: field(value, bits),
        ..Layout::default()
    }
}

// A code of so many bits, a bank and a pointer.
fn placed(code: u32, bits: usize, p: Place) -> Layout
    requires { (code < 2 ^ 17) × (bits ≤ 17) }
    ensures { result ≡ placed code bits p }
{
    Layout {
        middle: ebv(p.pointer),
        ..plain(code * 4 + p.bank % 4, bits + 2)
    }
}

impl Layout {
    fn middle(self, value: u32, bits: usize) -> Layout
        ensures { result ≡ record self { middle = field value bits } }
    {
        Layout {
            middle: field(value, bits),
            ..self
        }
    }

    fn back(self, value: u32, bits: usize) -> Layout
        ensures { result ≡ record self { back = field value bits } }
    {
        Layout {
            back: field(value, bits),
            ..self
        }
    }

    // Words for payload, and how many they are before them.
    fn words(self, bytes: usize) -> Layout
        requires { bytes < 512 }
        ensures { result ≡ record self { back = field (bytes / 2) 8; body = 8 * bytes } }
    {
        Layout {
            body: 8 * bytes,
            ..self.back((bytes / 2) as u32, 8)
        }
    }

    // The number that it carries.
    fn carrying(self, number: u16) -> Layout
        ensures { result ≡ record self { tail = field number 16 } }
    {
        Layout {
            tail: field(u32::from(number), 16),
            ..self
        }
    }

    // To one tag: its number, and a CRC-16.
    fn to(self, number: u16) -> Layout
        ensures { result ≡ record self { tail = field number 16; check = 16 } }
    {
        Layout {
            check: 16,
            ..self.carrying(number)
        }
    }

    // The bits of a frame.
    pub fn total(self) -> usize
        requires { Narrow self }
        ensures { result ≡ total_of self }
    {
        let fields = self.front.bits + self.middle.bits + self.back.bits;
        fields + self.body + self.tail.bits + self.check
    }
}

fn select(target: u32, action: u32, p: Place, length: u32) -> Layout
    ensures { result ≡ select_of target action p length }
{
    let code = (10 * 8 + target % 8) * 8 + action % 8;
    Layout {
        body: length as usize,
        tail: field(0, 1),
        check: 16,
        ..placed(code, 10, p).back(length, 8)
    }
}

fn query(r: Round) -> Layout
    ensures { result ≡ query_of r }
{
    let link = ((8 * 2 + r.dr % 2) * 4 + r.m % 4) * 2 + r.trext % 2;
    let who = ((link * 4 + r.sel % 4) * 4 + r.session % 4) * 2 + r.target % 2;
    Layout {
        check: 5,
        ..plain(who * 16 + r.q % 16, 17)
    }
}

// The layout of a command within the limits, whose payload has so many bytes.
pub fn lay(command: Command, number: u16, cover: u16, bytes: usize) -> Layout
    requires { within command bytes ≡ true }
    ensures { result ≡ layout_of command bytes number cover }
{
    match command {
        Command::QueryRep(session) => plain(session % 4, 4),
        Command::Ack => plain(1, 2).carrying(number),
        Command::Query(r) => query(r),
        Command::QueryAdjust(session, up_down) => {
            plain((9 * 4 + session % 4) * 8 + up_down % 8, 9)
        }
        Command::Select(target, action, p, length) => select(target, action, p, length),
        Command::Nak => plain(0xC0, 8),
        Command::ReqRn => plain(0xC1, 8).to(number),
        Command::Read(p, count) => placed(0xC2, 8, p).back(count, 8).to(number),
        Command::Write(p, word) => placed(0xC3, 8, p).back(covered(word, cover), 16).to(number),
        Command::Kill(half) => {
            plain(0xC4, 8)
                .middle(covered(half, cover), 16)
                .back(0, 3)
                .to(number)
        }
        Command::Lock(mask, action) => {
            plain(0xC5, 8)
                .middle(u32::from(mask), 10)
                .back(u32::from(action), 10)
                .to(number)
        }
        Command::Access(half) => plain(0xC6, 8).middle(covered(half, cover), 16).to(number),
        Command::BlockWrite(p) => placed(0xC7, 8, p).words(bytes).to(number),
        Command::BlockErase(p, count) => placed(0xC8, 8, p).back(count, 8).to(number),
        Command::ReadPermalock(p, range) => placed(0xC9 * 512, 17, p).back(range, 8).to(number),
        Command::Permalock(p) => placed(0xC9 * 512 + 1, 17, p).words(bytes).to(number),
    }
}
