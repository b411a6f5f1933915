// The SPI port: asking, releasing, the register, reads and writes of USER (RULES 4).
ghost use Rattle.std.specs.Prelude.{◌≡◌, false, true, [], ℕ, ◌*◌, ◌≤◌, ◌<◌, length, get_or};
ghost use Rattle.image.specs.Layout.{layout_of};
ghost use Rattle.image.specs.Rules.{Good};
ghost use Rattle.image.specs.Steps.{ready_row};
ghost use Rattle.replies.specs.Pack.{packed};
ghost use Rattle.stores.specs.Stores.{change_stores};
ghost use Rattle.tag.specs.Table.{live_of};
ghost use Rattle.states.specs.Commands.{is_killed};
ghost use Rattle.tag.specs.Port.{register_to, with_killed, with_unwritten, bad_count, bad_data, read_bits, port_open, ask_of, release_of, register_of, read_of, write_of};
ghost use Rattle.tag.specs.PortSteps.{after_killed, end_row, read_row, read_room, write_end, Masked, held_to};
ghost use Rattle.tag.specs.Session.{row_in, Stops};
ghost use Rattle.tag.specs.Steps.{on_session};
ghost use Rattle.tag.specs.Result.{first_of, result_of};

use crate::{Answer, Live, Outcome, Register, Session, answering, front, recording, starting};
use image::Layout;
use rights::Blocks;
use stores::Words;

// A session under power.
fn on(l: Live) -> Session
    ensures { result ≡ on_session l }
{
    Session { power: Some(l) }
}

// The session with its port held or free.
fn with_held(l: Live, held: bool) -> Session
    ensures { result ≡ held_to l held }
{
    on(Live { held, ..l })
}

// The session with another register.
fn with_register(l: Live, register: Register) -> Session
    ensures { result ≡ register_to l register }
{
    on(Live { register, ..l })
}

// With bit 0 set.
fn with_killed(l: Live) -> Session
    ensures { result ≡ register_to l (with_killed l.register) }
{
    let register = Register {
        killed: true,
        ..l.register
    };
    with_register(l, register)
}

// With bit 1 set where b is.
fn with_unwritten(l: Live, b: bool) -> Session
    ensures { result ≡ register_to l (with_unwritten b l.register) }
{
    let register = Register {
        unwritten: l.register.unwritten || b,
        ..l.register
    };
    with_register(l, register)
}

// No word, more than 255, or words past USER's end.
fn bad_count(y: Layout, at: usize, count: usize) -> bool
    ensures { result ≡ bad_count y at count }
{
    // Two tests of the count that end it: what follows then knows that there is a word, and the copying asks for none.
    if count == 0 || 255 < count {
        return true;
    }
    let words = y.user.words as usize;
    words < at || words < at + count
}

// Odd data, a bad count, or more words than WORK has pairs.
fn bad_data(y: Layout, at: usize, words: &[u8]) -> bool
    ensures { result ≡ bad_data y at words.now }
{
    let n = words.len();
    n % 2 != 0 || bad_count(y, at, n / 2) || y.pairs() < n / 2
}

// Killed, under power.
fn is_dead(session: Session) -> bool
    ensures { result ≡ is_killed (live_of session.power).state }
{
    match session.power {
        None => false,
        Some(l) => l.state.is_killed(),
    }
}

// With bit 0 set, under power.
fn after_killed(session: Session) -> Session
    ensures { result ≡ after_killed session.power }
{
    match session.power {
        None => session,
        Some(l) => with_killed(l),
    }
}

// The answer of a read that 6 does not stop.
#[tactic(auto, unfolding(crate::specs::PortSteps::end_row))]
fn read_end(image: &[u8], at: usize, count: usize, room: usize) -> Result<(), Answer>
    requires { 32 ≤ length image.now }
    ensures { (row_in result ≡ end_row (layout_of image.now) at count room) × Stops result }
{
    if bad_count(image::read_layout(image), at, count) {
        return Err(Answer::Count);
    }
    if room < 2 * count {
        return Err(Answer::NoRoom);
    }
    Ok(())
}

// Words of USER into the room, or zeros when Killed.
fn show(dead: bool, image: &[u8], at: usize, count: usize, room: &mut [u8])
    requires good { Good (layout_of image.now) image.now }
    requires count_value { bad_count (layout_of image.now) at count ≡ false }
    requires count_in_bounds { 2 * count ≤ length room.old }
    ensures { room.new ≡ packed (read_bits (layout_of image.now) image.now dead at count) room.old }
{
    if dead {
        replies::put_zeros(room, count);
        return;
    }
    let user = image::read_layout(image).user.at as usize;
    replies::put_plain(room, image, user + at, count);
}

// A read past the front.
fn transfer(
    dead: bool,
    image: &[u8],
    at: usize,
    count: usize,
    room: &mut [u8],
) -> Result<(), Answer>
    requires { ready_row image.now ≡ 0 }
    ensures { (row_in result ≡ end_row (layout_of image.now) at count (length room.old)) × (room.new ≡ read_room (row_in result) dead image.now at count room.old) × Stops result }
{
    read_end(image, at, count, room.len())?;
    show(dead, image, at, count, room);
    Ok(())
}

// A read of USER, of a session whose own answer is h; words in the room where nothing stops it.
pub fn read_held(
    h: Result<(), Answer>,
    dead: bool,
    image: &[u8],
    at: usize,
    count: usize,
    room: &mut [u8],
) -> Result<(), Answer>
    ensures { Stops h → (row_in result ≡ read_row (row_in h) image.now at count (length room.old)) × (room.new ≡ read_room (row_in result) dead image.now at count room.old) × Stops result }
{
    front::front(h, image)?;
    transfer(dead, image, at, count, room)
}

// The same by number, for any h: the number of the answer; words in the room where it is 0.
pub fn read_words(h: u8, dead: bool, image: &[u8], at: usize, count: usize, room: &mut [u8]) -> u8
    ensures { (result ≡ read_row h image.now at count (length room.old)) × (room.new ≡ read_room result dead image.now at count room.old) }
{
    if let Err(answer) = front::ready(image) {
        return u8::from(answer);
    }
    if h != 0 {
        return h;
    }
    match transfer(dead, image, at, count, room) {
        Ok(()) => 0,
        Err(answer) => u8::from(answer),
    }
}

// No access password and no USER pwd bit: the port may write words of open blocks.
fn is_open(image: &[u8], y: Layout) -> bool
    ensures { result ≡ port_open y image.now }
{
    states::access_word(image, y, 0) == 0
        && states::access_word(image, y, 1) == 0
        && rights::pair_in(bits::word(image, y.status.at as usize), 4).pwd == 0
}

// In a mask of zeros, a byte for each of n USER words from word `at` on: 1 where its block is permalocked, asked once for each block. Answers how many are 0.
fn mark(mask: &mut [u8], image: &[u8], y: Layout, at: usize, n: usize) -> usize
    requires n_in_bounds { (n ≤ length mask.old) × (n < 256) × (at < 65536) × (1 ≤ y.block) }
    requires by_index { (j : ℕ) → j < n → get_or mask.old j 0 ≡ 0 }
    ensures { Masked y image.now at mask.new n result × (result ≤ n) }
{
    let blocks = Blocks { image, layout: y };
    if blocks.none_locked(at, n) {
        return n;
    }
    let mut writable: usize = 0;
    let mut locked: u8 = 0;
    let mut next = at;
    for j in 0..n {
        if at + j == next {
            locked = recording::bit(blocks.locked(at + j));
            next = blocks.next(at + j);
        }
        mask[j] = locked;
        writable += 1 - locked as usize;
    }
    writable
}

// The words that may be written, as one change.
fn store_open(l: Live, y: Layout, image: &mut [u8], at: usize, words: &[u8], s: usize) -> Outcome
    requires good { Good y image.old }
    requires words_value { bad_data y at words.now ≡ false }
    requires state_value { is_killed l.state ≡ false }
    requires image_value { port_open y image.old ≡ true }
    ensures { result_of result image.new [] ≡ write_end l y image.old at words.now s }
{
    let n = words.len() / 2;
    let mut mask = [0u8; 255];
    let writable = mark(&mut mask, image, y, at, n);
    let need = answering::needed(writable);
    let place = y.user.at as usize + at;
    let open = Words {
        at: place,
        n,
        bytes: words,
        from: 0,
        skip: &mask,
    };
    let made = stores::change(image, y.work.at as usize, open, s);
    if s < need {
        return starting::stopped(Answer::PowerLost, made);
    }
    answering::done(with_unwritten(l, writable != n), 0, made, 0)
}

// What a write stores: nothing when Killed or where the port may write no word.
fn store(l: Live, y: Layout, image: &mut [u8], at: usize, words: &[u8], s: usize) -> Outcome
    requires good { Good y image.old }
    requires words_value { bad_data y at words.now ≡ false }
    ensures { result_of result image.new [] ≡ write_end l y image.old at words.now s }
{
    if l.state.is_killed() {
        return answering::done(with_killed(l), 0, 0, 0);
    }
    if !is_open(image, y) {
        return answering::done(with_unwritten(l, true), 0, 0, 0);
    }
    store_open(l, y, image, at, words, s)
}

impl Session {
    // Asks for the port.
    #[tactic(auto, unfolding(crate::specs::Port::ask_of))]
    pub fn ask(self) -> Outcome
        ensures { result_of result [] [] ≡ first_of (ask_of self) }
    {
        let Some(l) = self.power else {
            return answering::unmoved(self, Answer::NotReady);
        };
        if l.held || l.state.is_linked() {
            return answering::unmoved(self, Answer::Port);
        }
        answering::done(with_held(l, true), 0, 0, 0)
    }

    // Gives the port back.
    #[tactic(auto, unfolding(crate::specs::Port::release_of))]
    pub fn release(self) -> Outcome
        ensures { result_of result [] [] ≡ first_of (release_of self) }
    {
        let Some(l) = self.power else {
            return answering::unmoved(self, Answer::NotReady);
        };
        if !l.held {
            return answering::unmoved(self, Answer::Port);
        }
        answering::done(with_held(l, false), 0, 0, 0)
    }

    // Reads the register, which clears it.
    #[tactic(auto, unfolding(crate::specs::Port::register_of))]
    pub fn register(self) -> Outcome
        ensures { result_of result [] [] ≡ first_of (register_of self) }
    {
        let Some(l) = self.power else {
            return answering::unmoved(self, Answer::NotReady);
        };
        if !l.held {
            return answering::unmoved(self, Answer::Port);
        }
        let clear = Register {
            unwritten: false,
            killed: false,
        };
        let value = usize::from(recording::register_in(l.register));
        answering::done(with_register(l, clear), 0, 0, value)
    }

    // Reads count words of USER from word `at` on into the room.
    pub fn read(self, image: &[u8], at: usize, count: usize, room: &mut [u8]) -> Outcome
        ensures { result_of result image.now room.new ≡ first_of (read_of self image.now at count room.old) }
    {
        let dead = is_dead(self);
        if let Err(answer) = read_held(front::held(self), dead, image, at, count, room) {
            return answering::unmoved(self, answer);
        }
        let session = if dead { after_killed(self) } else { self };
        answering::done(session, 16 * count, 0, 0)
    }

    // Writes words to USER from word `at` on, with power for s stores.
    pub fn write(self, image: &mut [u8], at: usize, words: &[u8], s: usize) -> Outcome
        ensures { result_of result image.new [] ≡ first_of (write_of change_stores self image.old at words.now s) }
    {
        if let Err(answer) = front::front(front::held(self), image) {
            return answering::unmoved(self, answer);
        }
        let Some(l) = self.power else {
            return answering::unmoved(self, Answer::NotReady);
        };
        let y = image::read_layout(image);
        if bad_data(y, at, words) {
            return answering::unmoved(on(l), Answer::Count);
        }
        store(l, y, image, at, words, s)
    }
}
