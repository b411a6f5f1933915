// Which commands are within the limits (RULES 12.1).
ghost use Rattle.std.specs.Prelude.{◌≡◌, ◌&&◌};
ghost use Rattle.depot.specs.Limits.{placed as placed_of, whole_words, counted, within as within_of, query_within, select_within};

use crate::{Command, Place, Round};

fn placed(p: Place) -> bool
    ensures { result ≡ placed_of p }
{
    p.bank < 4 && p.pointer < 0x20_0000
}

// A place, and a number from 1 to 255.
fn ranged(p: Place, n: u32) -> bool
    ensures { result ≡ (placed_of p && counted n) }
{
    placed(p) && 0 < n && n < 256
}

// A place, and 1 to 255 words in an even number of bytes.
fn filled(p: Place, bytes: usize) -> bool
    ensures { result ≡ (placed_of p && whole_words bytes) }
{
    placed(p) && bytes % 2 == 0 && 0 < bytes && bytes < 512
}

fn query(r: Round) -> bool
    ensures { result ≡ query_within r }
{
    let link = r.dr < 2 && r.m < 4 && r.trext < 2;
    link && r.sel < 4 && r.session < 4 && r.target < 2 && r.q < 16
}

fn select(target: u32, action: u32, p: Place, length: u32, bytes: usize) -> bool
    ensures { result ≡ select_within target action p length bytes }
{
    let asked = length < 256 && target < 5 && action < 8;
    asked && 0 < p.bank && placed(p) && bytes == (length as usize).div_ceil(8)
}

// A command whose payload has so many bytes.
pub fn within(command: Command, bytes: usize) -> bool
    ensures { result ≡ within_of command bytes }
{
    match command {
        Command::QueryRep(session) => session < 4,
        Command::Ack => true,
        Command::Query(r) => query(r),
        Command::QueryAdjust(session, up_down) => session < 4 && matches!(up_down, 0 | 3 | 6),
        Command::Select(target, action, p, length) => select(target, action, p, length, bytes),
        Command::Nak => true,
        Command::ReqRn => true,
        Command::Read(p, count) => placed(p) && count < 256,
        Command::Write(p, _) => placed(p),
        Command::Kill(_) => true,
        Command::Lock(mask, action) => mask < 1024 && action < 1024,
        Command::Access(_) => true,
        Command::BlockWrite(p) => filled(p, bytes),
        Command::BlockErase(p, count) => ranged(p, count),
        Command::ReadPermalock(p, range) => ranged(p, range),
        Command::Permalock(p) => filled(p, bytes),
    }
}
