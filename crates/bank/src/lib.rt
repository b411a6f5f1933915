// A view of one bank: it shows that bank's words and no other (RULES 9.1).
#![tactic(auto)]

ghost use Rattle.std.specs.Prelude.{◌≡◌, ◌*◌, ◌/◌, ◌≤◌, length};
ghost use Rattle.image.specs.Layout.{end as end_of};
ghost use Rattle.bank.specs.Views.{bank_number, bytes_of, shown, view_of, words_shown, word_in, word_of};

use image::Section;

// The banks of an image.
#[derive(Clone, Copy, Debug, PartialEq, Eq)]
pub enum Bank {
    Reserved,
    Epc,
    Tid,
    User,
}

// One bank's part of an image; of a refused image the check's number and no byte. The number stands beside the words, since the laws of walks over a view (proofs/Viewed,
// RULES 9.4) are of these two fields.
#[derive(Clone, Copy)]
pub struct View<'a> {
    words: &'a [u8],
    answer: u8,
}

// A bank's number.
fn number(bank: Bank) -> u16
    ensures { result ≡ bank_number bank }
{
    match bank {
        Bank::Reserved => 0,
        Bank::Epc => 1,
        Bank::Tid => 2,
        Bank::User => 3,
    }
}

// The bytes of a section.
fn bytes(image: &[u8], s: Section) -> &[u8]
    requires { 2 * end_of s ≤ length image.now }
    ensures { result.now ≡ bytes_of s image.now }
{
    &image[2 * s.at as usize..2 * s.end()]
}

// The bank's part of a good image, by the bank's number.
fn part<'a>(image: &'a [u8], bank: u16) -> View<'a>
    ensures { shown result ≡ view_of image.now bank }
{
    match image::check(image) {
        Ok(y) => View {
            words: bytes(image, rights::bank(y, bank)),
            answer: 0,
        },
        Err(refusal) => View {
            words: &image[..0],
            answer: u8::from(refusal),
        },
    }
}

// The words of some bytes.
fn words_in(words: &[u8]) -> usize
    ensures { result ≡ length words.now / 2 }
{
    words.len() / 2
}

// Word i of some bytes, or none past their end. A refused image's is the check's number.
fn word_in(words: &[u8], answer: u8, i: u16) -> Result<Option<u16>, u8>
    ensures { result ≡ word_in (record { number = answer; bytes = words.now }) i }
{
    if answer != 0 {
        return Err(answer);
    }
    let i = i as usize;
    if i < words.len() / 2 {
        return Ok(Some(bits::word(words, i)));
    }
    Ok(None)
}

pub fn view_of<'a>(image: &'a [u8], bank: Bank) -> View<'a>
    ensures { shown result ≡ view_of image.now (bank_number bank) }
{
    part(image, number(bank))
}

// The words that a view shows.
pub fn count<'a>(v: View<'a>) -> usize
    ensures { result ≡ words_shown (shown v.entry) }
{
    words_in(v.words)
}

// Word i of a view.
pub fn read<'a>(v: View<'a>, i: u16) -> Result<Option<u16>, u8>
    ensures { result ≡ word_in (shown v.entry) i }
{
    word_in(v.words, v.answer, i)
}

// Word i of a bank, through a view of it.
pub fn word_of(image: &[u8], bank: Bank, i: u16) -> Result<Option<u16>, u8>
    ensures { result ≡ word_of image.now (bank_number bank) i }
{
    read(view_of(image, bank), i)
}
