// The image: its layout, read from the header, and the check of its header and content rules (RULES 1).
#![tactic(auto)]

ghost use Rattle.std.specs.Prelude.{◌≡◌, not, ◌+◌, ◌*◌, ◌^◌, ◌≤◌, ◌<◌, eqb, length};
ghost use Rattle.bits.specs.Below.{every, all};
ghost use Rattle.image.specs.Layout.{section_at, layout_of, blocks_in, pairs_in, end as end_of, within as within_of, stands as stands_of};
ghost use Rattle.image.specs.Check.{refusal_number, meaning, row_of, check_of};
ghost use Rattle.image.specs.Content.{count_in};
ghost use Rattle.image.specs.Rules.{Header, Good};
ghost use Rattle.image.specs.Steps.{start_good, banks_good, perma_good, work_good, header_steps, spare_in, words_fit, may_stand, between as between_of, may_take, pair_fits, ready_number, content_row, ready_row};

// A section: its offset in the image and its count, both in words.
#[derive(Clone, Copy)]
pub struct Section {
    pub at: u16,
    pub words: u16,
}

// What the header says: the block size and the seven sections.
#[derive(Clone, Copy)]
pub struct Layout {
    pub block: u16,
    pub status: Section,
    pub reserved: Section,
    pub epc: Section,
    pub tid: Section,
    pub user: Section,
    pub perma: Section,
    pub work: Section,
}

// Why the check refuses an image.
#[derive(Clone, Copy, Debug, PartialEq, Eq)]
pub enum Refusal {
    // Under 32 bytes.
    Short,
    // A header rule is broken, or the length is not the image's.
    Header,
    // A content rule is broken.
    Content,
}

// A refusal's number in the table (RULES 5).
impl From<Refusal> for u8 {
    ghost from_gives = { λ r n. n ≡ refusal_number r };

    fn from(r: Refusal) -> u8 {
        match r {
            Refusal::Short => 1,
            Refusal::Header => 2,
            Refusal::Content => 3,
        }
    }
}

// The section that the header has at word i.
fn section_in(image: &[u8], i: usize) -> Section
    requires { 2 * i + 3 < length image.now }
    ensures { result ≡ section_at image.now i }
{
    Section {
        at: bits::word_in(image, i),
        words: bits::word_in(image, i + 1),
    }
}

// The layout of bytes that have a header.
pub fn read_layout(image: &[u8]) -> Layout
    requires { 32 ≤ length image.now }
    ensures { result ≡ layout_of image.now }
{
    Layout {
        block: bits::word_in(image, 1),
        status: section_in(image, 2),
        reserved: section_in(image, 4),
        epc: section_in(image, 6),
        tid: section_in(image, 8),
        user: section_in(image, 10),
        perma: section_in(image, 12),
        work: section_in(image, 14),
    }
}

fn within(least: usize, most: usize, n: usize) -> bool
    ensures { result ≡ within_of least most n }
{
    least <= n && n <= most
}

fn between(from: usize, o: usize, to: usize) -> bool
    ensures { result ≡ between_of from o to }
{
    from <= o && o < to
}

impl Section {
    // The first word after a section.
    pub fn end(self) -> usize
        ensures { (result ≡ end_of self) × (result < 131072) }
    {
        self.at as usize + self.words as usize
    }

    fn stands(self, o: usize, least: usize, most: usize) -> bool
        ensures { result ≡ stands_of self o least most }
    {
        self.at as usize == o && within(least, most, self.words as usize)
    }
}

impl Layout {
    // The blocks of USER.
    pub fn blocks(self) -> usize
        ensures { (result ≡ blocks_in self) × (result < 131072) }
    {
        let b = self.block as usize;
        if b == 0 {
            return 0;
        }
        (self.user.words as usize + (b - 1)) / b
    }

    // W, the pairs of WORK.
    pub fn pairs(self) -> usize
        ensures { (result ≡ pairs_in self) × (result < 32768) }
    {
        (self.work.words as usize).saturating_sub(1) / 2
    }

    // The header's rules up to STATUS.
    fn start_good(self, image: &[u8]) -> bool
        requires { 32 ≤ length image.now }
        ensures { result ≡ start_good self image.now }
    {
        bits::word_in(image, 0) == 7
            && within(1, 4096, self.block as usize)
            && self.status.stands(16, 2, 2)
    }

    // The banks stand where and as large as they may.
    fn banks_good(self) -> bool
        ensures { result ≡ banks_good self }
    {
        self.reserved.stands(self.status.end(), 4, 64)
            && self.epc.stands(self.reserved.end(), 2, 33)
            && self.tid.stands(self.epc.end(), 0, 64)
            && self.user.stands(self.tid.end(), 0, 4096)
    }

    // PERMA has a bit for each of at most 256 blocks: its words hold them all, one word fewer would not. No division.
    fn perma_good(self) -> bool
        ensures { result ≡ perma_good self }
    {
        let users = self.user.words as usize;
        let width = 16 * self.block as usize;
        let held = width * self.perma.words as usize;
        self.perma.stands(self.user.end(), 0, 16) && users <= held && held < users + width
    }

    // WORK has a count and 16 to 255 pairs, and the image ends with it.
    fn work_good(self, image: &[u8]) -> bool
        ensures { result ≡ work_good self image.now }
    {
        self.work.stands(self.perma.end(), 33, 511)
            && self.work.words % 2 != 0
            && image.len() == 2 * self.work.end()
    }

    // The header's rules hold.
    fn header_good(self, image: &[u8]) -> bool
        requires { 32 ≤ length image.now }
        ensures { result ≡ all (header_steps self image.now) }
    {
        self.start_good(image) && self.banks_good() && self.perma_good() && self.work_good(image)
    }

    // 2 to the number of PERMA bits of blocks that don't exist.
    fn spare_unit(self) -> u16
        ensures { result ≡ 2 ^ spare_in self }
    {
        1 << ((16 - self.blocks() % 16) % 16)
    }

    // The four words that rules speak of keep them, each its own. A last word 0 fits any number of blocks.
    fn words_fit(self, image: &[u8]) -> bool
        requires { Header self image.now }
        ensures { result ≡ words_fit self image.now }
    {
        let lock = self.status.at as usize;
        let last = bits::word_in(image, self.work.at as usize - 1);
        bits::word_in(image, lock) < 1024
            && bits::word_in(image, lock + 1) < 2
            && bits::word_in(image, self.epc.at as usize + 1) / 2048 + 2 <= self.epc.words
            && (last == 0 || last % self.spare_unit() == 0)
    }

    // A pending value may go to word o.
    fn may_take(self, o: usize) -> bool
        ensures { result ≡ may_take self o }
    {
        between(16, o, self.tid.at as usize)
            || between(self.user.at as usize, o, self.work.at as usize)
    }
}

// The pairs of WORK in an image with a good header, and 2 to the number of PERMA bits of blocks that don't exist.
#[derive(Clone, Copy)]
struct Pairs<'a> {
    image: &'a [u8],
    layout: Layout,
    unit: u16,
    ghost header: { Header layout image.now },
    ghost spare: { unit ≡ 2 ^ spare_in layout },
}

impl<'a> Pairs<'a> {
    // The value v may stand at word i.
    fn may_stand(&self, i: usize, v: u16) -> bool
        requires { i < 2 ^ 62 }
        ensures { result ≡ may_stand self.now.layout i v }
    {
        let y = self.layout;
        let lock = y.status.at as usize;
        if i == lock {
            return v < 1024;
        }
        if i == lock + 1 {
            return v < 2;
        }
        if i == y.epc.at as usize + 1 {
            return v / 2048 + 2 <= y.epc.words;
        }
        i + 1 != y.perma.end() || v % self.unit == 0
    }

    // Pair j may be pending. Most are for USER or PERMA, and but for the last word there any value may stand.
    fn fits(&self, j: usize) -> bool
        requires { j < pairs_in self.now.layout }
        ensures { result ≡ pair_fits self.now.layout self.now.image.now j }
    {
        let y = self.layout;
        let at = y.work.at as usize + 1 + 2 * j;
        let o = bits::word_in(self.image, at) as usize;
        between(y.user.at as usize, o, y.work.at as usize - 1)
            || (y.may_take(o) && self.may_stand(o, bits::word_in(self.image, at + 1)))
    }

    // The first c may be pending.
    fn fit(&self, c: usize) -> bool
        requires { c ≤ pairs_in self.now.layout }
        ensures { result ≡ every (pair_fits self.now.layout self.now.image.now) c }
    {
        (0..c).all(|j| self.fits(j))
    }
}

// Whether words are pending, where the content rules hold.
fn content_row(image: &[u8], y: Layout) -> Result<bool, Refusal>
    requires { Header y image.now }
    ensures { ready_number result ≡ content_row y image.now }
{
    if !y.words_fit(image) {
        return Err(Refusal::Content);
    }
    let c = bits::word_in(image, y.work.at as usize) as usize;
    if c == 0 {
        return Ok(false);
    }
    let pairs = Pairs {
        image,
        layout: y,
        unit: y.spare_unit(),
    };
    if y.pairs() < c || !pairs.fit(c) {
        return Err(Refusal::Content);
    }
    Ok(true)
}

// What an image alone decides (RULES 5): whether words are pending, or why it is refused. For any bytes.
pub fn ready(image: &[u8]) -> Result<bool, Refusal>
    ensures { ready_number result ≡ ready_row image.now }
{
    if image.len() < 32 {
        return Err(Refusal::Short);
    }
    let y = read_layout(image);
    if !y.header_good(image) {
        return Err(Refusal::Header);
    }
    content_row(image, y)
}

// Words are pending: WORK's count isn't 0.
pub fn pending(image: &[u8]) -> bool
    requires { Good (layout_of image.now) image.now }
    ensures { result ≡ not (eqb (count_in (layout_of image.now) image.now) 0) }
{
    bits::word_in(image, bits::word_in(image, 14) as usize) != 0
}

// The image check, for any bytes.
pub fn check(image: &[u8]) -> Result<Layout, Refusal>
    ensures { meaning result ≡ check_of image.now }
{
    ready(image)?;
    Ok(read_layout(image))
}

// An answer's number in the table (RULES 5).
pub fn number(checked: Result<Layout, Refusal>) -> u8
    ensures { result ≡ row_of (meaning checked) }
{
    match checked {
        Ok(_) => 0,
        Err(r) => u8::from(r),
    }
}
