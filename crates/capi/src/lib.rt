// What firmware links (RULES 10): each operation over numbers, lent bytes and records of numbers.
#![tactic(auto)]

ghost use Rattle.std.specs.Prelude.{◌≡◌, []};
ghost use Rattle.image.specs.Check.{check_of};
ghost use Rattle.tag.specs.Power.{power_up_of};
ghost use Rattle.tag.specs.Table.{frame_of};
ghost use Rattle.tag.specs.Port.{ask_of, release_of, register_of, read_of, write_of};
ghost use Rattle.states.specs.Numbers.{numbers_in};
ghost use Rattle.tag.specs.Records.{session_of, in_numbers};
ghost use Rattle.capi.specs.Told.{told, sheet_of};
ghost use Rattle.capi.specs.Depot.{command_of, make_for, read_for, framed, reply_of};
ghost use Rattle.tag.specs.Result.{first_of};
ghost use Rattle.stores.specs.Stores.{change_stores};

mod commands;
mod records;
mod sheets;

use depot::{NotMade, NotRead};
pub use states::Record;

// An outcome: the answer's number, the new session, the reply's length in bits, the stores made, and the register where it was read.
#[repr(C)]
#[derive(Clone, Copy)]
pub struct Told {
    pub answer: u8,
    pub session: Record,
    pub reply: usize,
    pub stores: usize,
    pub value: usize,
}

// A section: its offset in the image and its count, both in words.
#[repr(C)]
#[derive(Clone, Copy)]
pub struct Place {
    pub at: u16,
    pub words: u16,
}

// What the check answers: a number, and where it is 0 the layout.
#[repr(C)]
#[derive(Clone, Copy)]
pub struct Sheet {
    pub answer: u8,
    pub block: u16,
    pub status: Place,
    pub reserved: Place,
    pub epc: Place,
    pub tid: Place,
    pub user: Place,
    pub perma: Place,
    pub work: Place,
}

// A command that a depot makes or reads a reply to: its kind, and what it has of the fields (RULES 12.9).
#[repr(C)]
#[derive(Clone, Copy)]
pub struct Request {
    pub kind: u32,
    pub bank: u32,
    pub pointer: u32,
    pub count: u32,
    pub word: u32,
    pub mask: u32,
    pub action: u32,
    pub target: u32,
    pub session: u32,
    pub up_down: u32,
    pub dr: u32,
    pub m: u32,
    pub trext: u32,
    pub sel: u32,
    pub q: u32,
}

// What making answers: a number, and where it is 0 the bits of the frame.
#[repr(C)]
#[derive(Clone, Copy)]
pub struct Frame {
    pub answer: usize,
    pub bits: usize,
}

// What reading answers: a number, and where it is 0 the kind of the reply and its values.
#[repr(C)]
#[derive(Clone, Copy)]
pub struct Reply {
    pub answer: usize,
    pub kind: usize,
    pub value: usize,
    pub at: usize,
}

// The image check.
#[unsafe(no_mangle)]
pub extern "C" fn tag_check(image: &[u8]) -> Sheet
    ensures { result ≡ sheet_of (check_of image.now) }
{
    sheets::sheet(image)
}

// Power-up, with power for s stores.
#[unsafe(no_mangle)]
pub extern "C" fn tag_power_up(image: &mut [u8], s: usize) -> Told
    ensures { told result image.new [] ≡ in_numbers (first_of (power_up_of image.old s)) }
{
    Told::from(tag::power_up(image, s))
}

// A radio frame of n bits, with a fresh random word, a reply room and power for s stores.
#[unsafe(no_mangle)]
pub extern "C" fn tag_frame(
    session: Record,
    image: &mut [u8],
    n: usize,
    frame: &[u8],
    fresh: u16,
    room: &mut [u8],
    s: usize,
) -> Told
    ensures { told result image.new room.new ≡ in_numbers (first_of (frame_of change_stores (record { session = session_of (numbers_in session); image = image.old; frame = frame.now; bits = n; fresh = fresh; room = room.old; power = s }))) }
{
    Told::from(tag::frame(session, image, frame, n, fresh, room, s))
}

// Asks for the port.
#[unsafe(no_mangle)]
pub extern "C" fn tag_ask(session: Record) -> Told
    ensures { told result [] [] ≡ in_numbers (first_of (ask_of (session_of (numbers_in session)))) }
{
    Told::from(tag::session_of(session).ask())
}

// Gives the port back.
#[unsafe(no_mangle)]
pub extern "C" fn tag_release(session: Record) -> Told
    ensures { told result [] [] ≡ in_numbers (first_of (release_of (session_of (numbers_in session)))) }
{
    Told::from(tag::session_of(session).release())
}

// Reads the register, which clears it.
#[unsafe(no_mangle)]
pub extern "C" fn tag_register(session: Record) -> Told
    ensures { told result [] [] ≡ in_numbers (first_of (register_of (session_of (numbers_in session)))) }
{
    Told::from(tag::session_of(session).register())
}

// Reads count words of USER from word `at` on into the room.
#[unsafe(no_mangle)]
pub extern "C" fn tag_read(
    session: Record,
    image: &[u8],
    at: usize,
    count: usize,
    room: &mut [u8],
) -> Told
    ensures { told result image.now room.new ≡ in_numbers (first_of (read_of (session_of (numbers_in session)) image.now at count room.old)) }
{
    let h = records::held(session);
    let dead = session.low % 0x100 == 7;
    if let Err(answer) = tag::read_held(h, dead, image, at, count, room) {
        return records::told(u8::from(answer), records::own(session, h), 0);
    }
    let after = if dead {
        records::with_killed(session)
    } else {
        session
    };
    records::told(0, after, 16 * count)
}

// Writes words to USER from word `at` on, with power for s stores.
#[unsafe(no_mangle)]
pub extern "C" fn tag_write(
    session: Record,
    image: &mut [u8],
    at: usize,
    words: &[u8],
    s: usize,
) -> Told
    ensures { told result image.new [] ≡ in_numbers (first_of (write_of change_stores (session_of (numbers_in session)) image.old at words.now s)) }
{
    Told::from(tag::session_of(session).write(image, at, words, s))
}

// Makes the frame of a command, with the number that it carries and a cover number, into the room.
#[unsafe(no_mangle)]
pub extern "C" fn depot_make(
    command: Request,
    payload: &[u8],
    number: u16,
    cover: u16,
    room: &mut [u8],
) -> Frame
    ensures { framed result room.new ≡ make_for (command_of command) payload.now number cover room.old }
{
    let Some(o) = commands::command_of(command) else {
        return Frame::from(Err(NotMade::Beyond));
    };
    Frame::from(depot::make(o, payload, number, cover, room))
}

// Reads n bits as a reply to a command, with the number that it carried.
#[unsafe(no_mangle)]
pub extern "C" fn depot_read(
    command: Request,
    payload: &[u8],
    number: u16,
    n: usize,
    reply: &[u8],
) -> Reply
    ensures { result ≡ reply_of (read_for (command_of command) payload.now number n reply.now) }
{
    let Some(o) = commands::command_of(command) else {
        return Reply::from(Err(NotRead::Beyond));
    };
    Reply::from(depot::read(o, payload, number, n, reply))
}
