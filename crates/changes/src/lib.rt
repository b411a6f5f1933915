// Storing a command's words as one change, by where they come from (RULES 2.1). Each answers the stores made, of at most s.
// A place is WORK's first word, the first word to store and their count: apart, as plans hold them, and since a type for them would leave the image's length, the last part of `Holds`, to each contract.
#![tactic(auto)]

ghost use Rattle.std.specs.Prelude.{◌≡◌, [], ◌∷◌, ℕ, ◌+◌, ◌*◌, ◌^◌, ◌≤◌, ◌<◌, length};
ghost use Rattle.std.specs.Int.Bits.{bit_or};
ghost use Rattle.bits.specs.Words.{word_at, store as store_of};
ghost use Rattle.bits.specs.Bits.{field_at};
ghost use Rattle.bits.specs.Below.{below};
ghost use Rattle.stores.specs.Stores.{change_stores};
ghost use Rattle.stores.specs.Steps.{Made, word_from};
ghost use Rattle.changes.specs.Changes.{Holds, or_to};

use stores::Words;

// The n words that stand in `words` from bit `from` on.
pub fn store_bits(
    image: &mut [u8],
    work: usize,
    at: usize,
    n: usize,
    words: &[u8],
    from: usize,
    s: usize,
) -> usize
    requires { Holds work at n (length image.old) × (from < 2 ^ 61) }
    ensures { Made (change_stores work (below (word_from at words.now from) n)) s image.old image.new result }
{
    let none = [0u8; 1];
    let all = Words {
        at,
        n,
        bytes: words,
        from,
        skip: &none,
    };
    stores::change(image, work, all, s)
}

// One word.
pub fn store_one(image: &mut [u8], work: usize, at: usize, v: u16, s: usize) -> usize
    requires { Holds work at 1 (length image.old) }
    ensures { Made (change_stores work (store_of at v ∷ [])) s image.old image.new result }
{
    stores::change_one(image, work, at, v, s)
}

// Zeros.
pub fn store_zeros(image: &mut [u8], work: usize, at: usize, n: usize, s: usize) -> usize
    requires { Holds work at n (length image.old) }
    ensures { Made (change_stores work (below (λ j. store_of (at + j) 0) n)) s image.old image.new result }
{
    let zero = [0u8; 1];
    store_bits(image, work, at, n, &zero, 0, s)
}

// Words of the image with a frame's bits added, into a buffer.
fn or_words(buffer: &mut [u8], image: &[u8], at: usize, n: usize, frame: &[u8], from: usize)
    requires { (2 * n ≤ length buffer.old) × (n ≤ 16) × (at < 65536) × (from < 2 ^ 61) }
    ensures { (j : ℕ) → j < n → word_at buffer.new j ≡ bit_or (word_at image.now (at + j)) (field_at frame.now (from + 16 * j) 16) }
{
    for j in 0..n {
        let old = bits::word(image, at + j);
        let mask = bits::field(frame, from + 16 * j, 16);
        bits::store_word(buffer, j, old | mask);
    }
}

// Words with a frame's bits added. They are read before the first is stored, so they pass through a buffer and not a closure; `lent` says that it consists of bytes.
pub fn store_mask(
    image: &mut [u8],
    work: usize,
    at: usize,
    n: usize,
    frame: &[u8],
    from: usize,
    s: usize,
) -> usize
    requires { Holds work at n (length image.old) × (from < 2 ^ 61) × (n ≤ 16) }
    ensures { Made (change_stores work (below (or_to image.old frame.now at from) n)) s image.old image.new result }
{
    let mut buffer = [0u8; 32];
    or_words(&mut buffer, image, at, n, frame, from);
    bits::lent(&buffer);
    store_bits(image, work, at, n, &buffer, 0, s)
}
