// Which words a command may read and write, and the error code that it gets where it may not (RULES 3.18 to 3.22).
#![tactic(auto)]

ghost use Rattle.std.specs.Prelude.{Result, Ok, Err, Option, Some, None, ◌≡◌, not, ◌||◌, ◌+◌, ◌-◌, ◌*◌, ◌/◌, ◌%◌, ◌^◌, ◌≤◌, ◌<◌, eqb, ltb, length};
ghost use Rattle.bits.specs.Bits.{bit_at};
ghost use Rattle.bits.specs.Below.{every};
ghost use Rattle.image.specs.Layout.{layout_of, blocks_in};
ghost use Rattle.image.specs.Content.{permalock as permalock_of};
ghost use Rattle.rights.specs.Rights.{fault_number, bank_of, pwd_bit, perma_bit, opens as opens_of, pair_of, block_open, may_write, read_end, span_words, beyond as beyond_of, bad_pc, read_code, write_code, locked_to, pair_breaks, some_permalock, user_open_for_good, lock_code, not_perma, perma_read_code, perma_code};
ghost use Rattle.rights.specs.Steps.{first_locked, rest_open, entry_of};

use frames::Span;
use image::{Layout, Section};

// The standard's errors that a command can meet.
#[derive(Clone, Copy, Debug, PartialEq, Eq)]
pub enum Fault {
    Other,
    PastEnd,
    NoRight,
}

// A fault's error code.
impl From<Fault> for u8 {
    ghost from_gives = { λ f n. n ≡ fault_number f };

    fn from(fault: Fault) -> u8 {
        match fault {
            Fault::Other => 0x00,
            Fault::PastEnd => 0x03,
            Fault::NoRight => 0x04,
        }
    }
}

// The bank with the number b, as frames bring it (`bank_of`).
pub fn bank(y: Layout, b: u16) -> Section
    ensures { result ≡ bank_of y b }
{
    match b {
        0 => y.reserved,
        1 => y.epc,
        2 => y.tid,
        _ => y.user,
    }
}

// Where the header has the bank with the number b.
fn entry_of(b: u16) -> usize
    ensures { (result ≡ entry_of b) × (result ≤ 10) }
{
    match b {
        0..=2 => 4 + 2 * b as usize,
        _ => 10,
    }
}

// The same, read from the header: two words of it, where a layout is fifteen.
pub fn bank_in(image: &[u8], b: u16) -> Section
    requires { 32 ≤ length image.now }
    ensures { result ≡ bank_of (layout_of image.now) b }
{
    let i = entry_of(b);
    Section {
        at: bits::word_in(image, i),
        words: bits::word_in(image, i + 1),
    }
}

// A pair of a lock word: its pwd bit and its permalock bit.
#[derive(Clone, Copy, Debug, PartialEq, Eq)]
pub struct Pair {
    pub pwd: u16,
    pub perma: u16,
}

// Pair k of a lock word: 0 kill, 1 access, 2 EPC, 3 TID, 4 USER, by the number that `pair_of` gives.
pub fn pair_in(lock: u16, k: usize) -> Pair
    requires { k < 2 ^ 32 }
    ensures { (result.pwd ≡ pwd_bit lock k) × (result.pwd < 2) × (result.perma ≡ perma_bit lock k) × (result.perma < 2) }
{
    Pair {
        pwd: (lock >> 9usize.saturating_sub(2 * k)) % 2,
        perma: (lock >> 8usize.saturating_sub(2 * k)) % 2,
    }
}

// Pair k opens its words.
fn opens(secured: bool, lock: u16, k: usize) -> bool
    requires { k < 2 ^ 32 }
    ensures { result ≡ opens_of secured lock k }
{
    let pair = pair_in(lock, k);
    pair.pwd == 0 || (secured && pair.perma == 0)
}

// The n words of RESERVED from word p on are open: those below word 2 by the kill pair, the others by the access pair.
fn reserved_open(secured: bool, lock: u16, p: usize, n: usize) -> bool
    requires { (p < 2 ^ 32) × (n < 2 ^ 32) }
    ensures { result ≡ every (λ j. opens_of secured lock (pair_of 0 (p + j))) n }
{
    let low = n == 0 || 2 <= p || opens(secured, lock, 0);
    let high = n == 0 || p + n <= 2 || opens(secured, lock, 1);
    low && high
}

// An image with its layout, for what locks its words: the lock word, and the blocks of USER, each with its permalock bit.
#[derive(Clone, Copy)]
pub struct Blocks<'a> {
    pub image: &'a [u8],
    pub layout: Layout,
}

impl Blocks<'_> {
    // The block of USER word i.
    fn block_of(&self, i: usize) -> usize
        ensures { (result ≡ i / self.now.layout.block) × (result ≤ i) }
    {
        match self.layout.block as usize {
            0 => 0,
            size => i / size,
        }
    }

    // The first word of the block after that of USER word i.
    pub fn next(&self, i: usize) -> usize
        requires { i < 2 ^ 32 }
        ensures { (result ≡ (i / self.now.layout.block + 1) * self.now.layout.block) × (result < 2 ^ 33) }
    {
        (self.block_of(i) + 1) * self.layout.block as usize
    }

    // The permalock bit of block b.
    fn permalock(&self, b: usize) -> u16
        requires { b < 2 ^ 60 }
        ensures { result ≡ permalock_of self.now.layout self.now.image.now b }
    {
        (bits::word(self.image, self.layout.perma.at as usize + b / 16) >> (15 - b % 16)) % 2
    }

    // USER word i stands in a permalocked block.
    pub fn locked(&self, i: usize) -> bool
        requires { i < 2 ^ 60 }
        ensures { result ≡ not (block_open self.now.layout self.now.image.now i) }
    {
        self.permalock(self.block_of(i)) != 0
    }

    // The first of the USER words from .. from + count - 1 that stands in a permalocked block.
    pub fn first_locked(&self, from: usize, count: usize) -> Option<usize>
        requires { (from < 2 ^ 32) × (count ≤ 65535) }
        ensures { result ≡ first_locked self.now.layout self.now.image.now from count }
    {
        let stop = from + count;
        let width = match self.layout.block as usize {
            0 => stop,
            size => size,
        };
        let mut next = from;
        // Block by block: block b is locked if its permalock bit is 1, and all its words with it.
        'search: {
            for b in self.block_of(from)..self.block_of(stop) + 1 {
                let locked = self.permalock(b) != 0;
                let end = stop.min((b + 1) * width);
                // Word by word to the end of block b: the first word of a locked block ends the search.
                for i in next..end {
                    if locked {
                        break 'search Some(i);
                    }
                }
                next = end;
            }
            None
        }
    }

    // None of the n USER words from word p on stands in a permalocked block.
    pub fn none_locked(&self, p: usize, n: usize) -> bool
        requires { (p < 2 ^ 32) × (n ≤ 65535) }
        ensures { result ≡ every (λ j. block_open self.now.layout self.now.image.now (p + j)) n }
    {
        self.first_locked(p, n).is_none()
    }

    // The n words of bank b from word p on, words of EPC, TID or USER, may be written where their pair is open.
    fn rest_open(&self, b: u16, p: usize, n: usize) -> bool
        requires { (p < 2 ^ 32) × (0 < n) × (n ≤ 65535) }
        ensures { result ≡ every (λ j. rest_open self.now.layout self.now.image.now b (p + j)) n }
    {
        match b {
            1 => p != 0,
            2 => false,
            3 => self.none_locked(p, n),
            _ => true,
        }
    }

    // Some block is permalocked.
    fn some_permalock(&self) -> bool
        ensures { result ≡ some_permalock self.now.layout self.now.image.now }
    {
        (0..self.layout.blocks()).any(|b| self.permalock(b) != 0)
    }

    // What stands against a Lock.
    #[tactic(auto, unfolding(crate::specs::Rights::lock_code))]
    pub fn lock_code(&self, mask: u16, action: u16) -> Result<(), Fault>
        ensures { result ≡ lock_code self.now.layout self.now.image.now mask action }
    {
        let old = bits::word(self.image, self.layout.status.at as usize);
        let new = locked(old, mask, action);
        if !pairs_kept(old, new) {
            return Err(Fault::NoRight);
        }
        if mask % 4 != 0 && open_for_good(new) && self.some_permalock() {
            return Err(Fault::NoRight);
        }
        Ok(())
    }

    // What stands against a BlockPermalock that locks; its mask stands in the frame from bit `from` on.
    #[tactic(auto, unfolding(crate::specs::Rights::perma_code))]
    pub fn perma_code(&self, s: Span, frame: &[u8], from: usize) -> Result<(), Fault>
        requires { from < 2 ^ 61 }
        ensures { result ≡ perma_code self.now.layout self.now.image.now s frame.now from }
    {
        let y = self.layout;
        let (at, n) = (16 * s.pointer as usize, 16 * s.count as usize);
        if not_perma(y, s) || !mask_fits(y, at, frame, from, n) {
            return Err(Fault::PastEnd);
        }
        if open_for_good(bits::word(self.image, y.status.at as usize)) {
            return Err(Fault::NoRight);
        }
        Ok(())
    }
}

// The span takes the PC, and pc has a length that the bank can't hold.
fn bad_pc(y: Layout, s: Span, pc: u16) -> bool
    ensures { result ≡ bad_pc y s pc }
{
    let p = s.pointer as usize;
    let here = s.bank == 1 && p <= 1 && 1 < p + s.count as usize;
    here && y.epc.words < pc / 2048 + 2
}

// A pointer at or beyond the end of the bank b, or words past it.
fn beyond(b: Section, s: Span) -> bool
    ensures { result ≡ beyond_of b s }
{
    let words = b.words as usize;
    let p = s.pointer as usize;
    words <= p || words < p + s.count as usize
}

// A bank other than USER, or a range past PERMA.
fn not_perma(y: Layout, s: Span) -> bool
    ensures { result ≡ not_perma y s }
{
    s.bank != 3 || (y.perma.words as usize) < s.pointer as usize + s.count as usize
}

// What stands against a BlockPermalock that reads.
#[tactic(auto, unfolding(crate::specs::Rights::perma_read_code))]
pub fn perma_read_code(y: Layout, s: Span) -> Result<(), Fault>
    ensures { result ≡ perma_read_code y s }
{
    if not_perma(y, s) {
        return Err(Fault::PastEnd);
    }
    Ok(())
}

// The lock word after a Lock: masked bits are the action's.
#[tactic(auto, unfolding(crate::specs::Rights::locked_to))]
pub fn locked(old: u16, mask: u16, action: u16) -> u16
    ensures { result ≡ locked_to old mask action }
{
    (old & (mask ^ 1023)) | (action & mask)
}

// Pair k is permalocked and would lose its permalock or change its pwd bit.
fn pair_breaks(old: u16, new: u16, k: usize) -> bool
    requires { k < 2 ^ 32 }
    ensures { result ≡ pair_breaks old new k }
{
    let (old, new) = (pair_in(old, k), pair_in(new, k));
    old.perma == 1 && !(new.perma == 1 && new.pwd == old.pwd)
}

// No pair breaks.
fn pairs_kept(old: u16, new: u16) -> bool
    ensures { result ≡ every (λ k. not (pair_breaks old new k)) 5 }
{
    (0..5).all(|k| !pair_breaks(old, new, k))
}

// USER is at 01.
fn open_for_good(lock: u16) -> bool
    ensures { result ≡ user_open_for_good lock }
{
    let user = pair_in(lock, 4);
    user.pwd == 0 && user.perma == 1
}

// The n mask bits from bit `from` of the frame on, for the blocks from block `at` on, leave blocks that don't exist.
fn mask_fits(y: Layout, at: usize, frame: &[u8], from: usize, n: usize) -> bool
    requires { (at < 2 ^ 60) × (from < 2 ^ 61) × (n < 2 ^ 60) }
    ensures { result ≡ every (λ k. eqb (bit_at frame.now (from + k)) 0 || ltb (at + k) (blocks_in y)) n }
{
    let first = y.blocks().saturating_sub(at);
    (0..n.saturating_sub(first)).all(|k| bits::bit(frame, from + (first + k)) == 0)
}

// An image that has a header. Whether the tag is Secured is asked by two of its methods alone, so it is no field.
#[derive(Clone, Copy)]
pub struct Memory<'a> {
    pub image: &'a [u8],
    ghost headed: { 32 ≤ length image.now },
}

impl Memory<'_> {
    // What the header says.
    pub fn layout(self) -> Layout
        ensures { result ≡ layout_of self.entry.image.now }
    {
        image::read_layout(self.image)
    }

    // The n words of bank b from word p on may be written.
    fn may_write(self, secured: bool, b: u16, p: usize, n: usize) -> bool
        requires { (p < 2 ^ 32) × (n ≤ 65535) }
        ensures { result ≡ every (λ j. may_write (layout_of self.entry.image.now) self.entry.image.now secured b (p + j)) n }
    {
        if n == 0 {
            return true;
        }
        let y = self.layout();
        let lock = bits::word(self.image, y.status.at as usize);
        if b == 0 {
            return reserved_open(secured, lock, p, n);
        }
        if !opens(secured, lock, b as usize + 1) {
            return false;
        }
        let blocks = Blocks {
            image: self.image,
            layout: y,
        };
        blocks.rest_open(b, p, n)
    }

    // The word before which a Read of bank b with WordCount 0 ends: in EPC L + 2, if its pointer p lies below it; else the bank's end.
    fn read_end(self, b: u16, p: usize) -> usize
        ensures { (result ≡ read_end (layout_of self.entry.image.now) self.entry.image.now b p) × (result < 65536) }
    {
        let words = bank_in(self.image, b).words as usize;
        if b != 1 {
            return words;
        }
        let end = bits::word(self.image, self.layout().epc.at as usize + 1) as usize / 2048 + 2;
        if p < end { end } else { words }
    }

    // The words that a Read of a span shows.
    pub fn span_words(self, s: Span) -> usize
        ensures { (result ≡ span_words (layout_of self.entry.image.now) self.entry.image.now s) × (result < 65536) }
    {
        if s.count == 0 {
            let p = s.pointer as usize;
            return self.read_end(s.bank, p).saturating_sub(p);
        }
        s.count as usize
    }

    // What stands against a Read.
    #[tactic(auto, unfolding(crate::specs::Rights::read_code), using(crate::proofs::Spans::others_read))]
    pub fn read_code(self, secured: bool, s: Span) -> Result<(), Fault>
        ensures { result ≡ read_code (layout_of self.entry.image.now) self.entry.image.now secured s }
    {
        if beyond(bank_in(self.image, s.bank), s) {
            return Err(Fault::PastEnd);
        }
        if s.bank != 0 {
            return Ok(());
        }
        let lock = bits::word(self.image, self.layout().status.at as usize);
        if reserved_open(secured, lock, s.pointer as usize, self.span_words(s)) {
            return Ok(());
        }
        Err(Fault::NoRight)
    }

    // What stands against a Write, BlockWrite or BlockErase; pc is what would stand in EPC word 1.
    #[tactic(auto, unfolding(crate::specs::Rights::write_code))]
    pub fn write_code(self, secured: bool, s: Span, pc: u16) -> Result<(), Fault>
        ensures { result ≡ write_code (layout_of self.entry.image.now) self.entry.image.now secured s pc }
    {
        if beyond(bank_in(self.image, s.bank), s) {
            return Err(Fault::PastEnd);
        }
        if !self.may_write(secured, s.bank, s.pointer as usize, s.count as usize) {
            return Err(Fault::NoRight);
        }
        let y = self.layout();
        if bad_pc(y, s, pc) {
            return Err(Fault::PastEnd);
        }
        if y.pairs() < s.count as usize {
            return Err(Fault::Other);
        }
        Ok(())
    }
}
