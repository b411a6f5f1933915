// Stores under a limited power: staging, applying, and the stores of power-up (RULES 2).
#![tactic(auto)]

ghost use Rattle.std.specs.Prelude.{◌≡◌, [], ◌∷◌, ℕ, ◌+◌, ◌*◌, ◌^◌, ◌≤◌, ◌<◌, length};
ghost use Rattle.bits.specs.Words.{word_at, store as store_of};
ghost use Rattle.bits.specs.Bits.{field_at};
ghost use Rattle.image.specs.Content.{length_of, pc_word};
ghost use Rattle.image.specs.Rules.{Good};
ghost use Rattle.stores.specs.Stores.{staged as staged_of, finished, change_stores, epc_crc, power_stores};
ghost use Rattle.stores.specs.Steps.{Ran, Made, StagedTo, announced, Announced, pairs_at, chosen_at, chosen};

use image::Layout;

// The words of a change: of the n that stand in `bytes` from bit `from` on, for the words from `at` on, those that `skip` leaves. It has a byte for each, and leaves where that is 0.
#[derive(Clone, Copy)]
pub struct Words<'a> {
    pub at: usize,
    pub n: usize,
    pub bytes: &'a [u8],
    pub from: usize,
    pub skip: &'a [u8],
    ghost few: { n < 256 },
    ghost small: { at + n < 65536 },
    ghost near: { from < 2 ^ 61 },
}

// Word j of those that stand in `bytes` from bit `from` on.
fn value(bytes: &[u8], from: usize, j: usize) -> u16
    requires { (j < 65536) × (from < 2 ^ 61) }
    ensures { result ≡ field_at bytes.now (from + 16 * j) 16 }
{
    match from {
        0 => bits::word(bytes, j),
        _ => bits::field(bytes, from + 16 * j, 16),
    }
}

// How many stores power is left for. The bytes are lent to each method anew: as a field here they were tried, and what they are given back as did not come through the proof.
#[derive(Drop)]
struct Budget {
    left: usize,
}

impl Budget {
    // One store if power is left, and none if not.
    fn store(&mut self, bytes: &mut [u8], i: usize, v: u16)
        requires { 2 * i + 1 < length bytes.old }
        ensures { Ran (store_of i v ∷ []) self.old.left bytes.old bytes.new self.new.left }
    {
        if self.left != 0 {
            bits::store_word_in(bytes, i, v);
            self.left -= 1;
        }
    }

    // Pair k of the work area; one test where power is left for both words.
    fn put_pair(&mut self, bytes: &mut [u8], k: usize, o: u16, v: u16)
        requires { (k < 256) × (2 * (3 + 2 * k) ≤ length bytes.old) }
        ensures { Ran (staged_of (1 + 2 * k) (store_of o v ∷ [])) self.old.left bytes.old bytes.new self.new.left }
    {
        if self.left < 2 {
            self.store(bytes, 1 + 2 * k, o);
            return;
        }
        bits::store_word_in(bytes, 1 + 2 * k, o);
        bits::store_word_in(bytes, 1 + 2 * k + 1, v);
        self.left -= 2;
    }

    // Word j of a change, staged after k pairs, or passed over. Answers the pairs staged.
    fn stage_word(&mut self, bytes: &mut [u8], k: usize, words: Words<'_>, j: usize) -> usize
        requires { (k < 256) × (j < words.n) × (2 * (3 + 2 * k) ≤ length bytes.old) }
        ensures { StagedTo k (chosen_at words.entry.at words.entry.bytes.now words.entry.from words.entry.skip.now j) self.old.left bytes.old bytes.new self.new.left result }
    {
        if bits::byte(words.skip, j) != 0 {
            return k;
        }
        self.put_pair(
            bytes,
            k,
            (words.at + j) as u16,
            value(words.bytes, words.from, j),
        );
        k + 1
    }

    // The pairs of a change. Answers how many.
    fn stage_words(&mut self, bytes: &mut [u8], words: Words<'_>) -> usize
        requires { 2 * (1 + 2 * words.n) ≤ length bytes.old }
        ensures { StagedTo 0 (chosen words.entry.at words.entry.bytes.now words.entry.from words.entry.skip.now words.entry.n) self.old.left bytes.old bytes.new self.new.left result }
    {
        let mut k: usize = 0;
        for j in 0..words.n {
            k = self.stage_word(bytes, k, words, j);
        }
        k
    }

    // The pairs of a change, then their count, into the work area. Nothing where there is no word. Answers how many.
    fn stage(&mut self, bytes: &mut [u8], words: Words<'_>) -> usize
        requires { 2 * (1 + 2 * words.n) ≤ length bytes.old }
        ensures { Announced (chosen words.entry.at words.entry.bytes.now words.entry.from words.entry.skip.now words.entry.n) self.old.left bytes.old bytes.new self.new.left result }
    {
        let k = self.stage_words(bytes, words);
        if k != 0 {
            self.store(bytes, 0, k as u16);
        }
        k
    }

    // The pair of one word, then the count 1, into the work area.
    fn stage_one(&mut self, bytes: &mut [u8], at: usize, v: u16)
        requires { (at < 65536) × (6 ≤ length bytes.old) }
        ensures { Ran (announced (store_of at v ∷ [])) self.old.left bytes.old bytes.new self.new.left }
    {
        self.put_pair(bytes, 0, at as u16, v);
        self.store(bytes, 0, 1);
    }

    // The words of the first n pairs of WORK.
    fn apply(&mut self, bytes: &mut [u8], work: usize, n: usize)
        requires n_bound { (n < 256) × (work < 65536) × (2 * (work + 1 + 2 * n) ≤ length bytes.old) }
        requires by_index { (j : ℕ) → j < n → word_at bytes.old (work + 1 + 2 * j) < work }
        ensures { Ran (pairs_at work bytes.old n) self.old.left bytes.old bytes.new self.new.left }
    {
        for j in 0..n {
            let at = work + 1 + 2 * j;
            let o = bits::word_in(bytes, at) as usize;
            let v = bits::word_in(bytes, at + 1);
            self.store(bytes, o, v);
        }
    }

    // The words of the first n pairs of WORK, then the count 0.
    fn settle(&mut self, bytes: &mut [u8], work: usize, n: usize)
        requires n_bound { (n < 256) × (work < 65536) × (2 * (work + 1 + 2 * n) ≤ length bytes.old) }
        requires by_index { (j : ℕ) → j < n → word_at bytes.old (work + 1 + 2 * j) < work }
        ensures { Ran (finished work (pairs_at work bytes.old n)) self.old.left bytes.old bytes.new self.new.left }
    {
        if n != 0 {
            self.apply(bytes, work, n);
            self.store(bytes, work, 0);
        }
    }
}

// A change, with WORK from word `work` on. Answers the stores made, of at most s.
pub fn change(image: &mut [u8], work: usize, words: Words<'_>, s: usize) -> usize
    requires { (words.at + words.n ≤ work) × (work < 65536) × (2 * (work + 1 + 2 * words.n) ≤ length image.old) }
    ensures { Made (change_stores work (chosen words.entry.at words.entry.bytes.now words.entry.from words.entry.skip.now words.entry.n)) s image.old image.new result }
{
    let mut budget = Budget { left: s };
    let pairs = budget.stage(&mut image[2 * work..], words);
    if pairs == 0 {
        return 0;
    }
    if budget.left == 0 {
        return s;
    }
    budget.settle(image, work, pairs);
    s - budget.left
}

// A change of one word. Answers the stores made, of at most s.
pub fn change_one(image: &mut [u8], work: usize, at: usize, v: u16, s: usize) -> usize
    requires { (at < work) × (work < 65536) × (2 * (work + 3) ≤ length image.old) }
    ensures { Made (change_stores work (store_of at v ∷ [])) s image.old image.new result }
{
    let mut budget = Budget { left: s };
    budget.stage_one(&mut image[2 * work..], at, v);
    budget.store(image, at, v);
    budget.store(image, work, 0);
    s - budget.left
}

// The CRC-16 over the PC and the L words after it.
fn epc_crc(image: &[u8], y: Layout) -> u16
    requires { 2 * (y.epc.at + 2 + length_of (pc_word y image.now)) ≤ length image.now }
    ensures { result ≡ epc_crc y image.now }
{
    let pc = y.epc.at as usize + 1;
    let l = bits::word(image, pc) as usize / 2048;
    crc::crc16(&image[2 * pc..], 16 * (l + 1))
}

// The stores of power-up. Answers the stores made, of at most s.
pub fn power(image: &mut [u8], y: Layout, s: usize) -> usize
    requires { Good y image.old }
    ensures { Made (power_stores y image.old) s image.old image.new result }
{
    let work = y.work.at as usize;
    let c = bits::word(image, work) as usize;
    let mut budget = Budget { left: s };
    budget.settle(image, work, c);
    let sum = epc_crc(image, y);
    budget.store(image, y.epc.at as usize, sum);
    s - budget.left
}
