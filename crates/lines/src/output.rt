// What is written, by way of a buffer of fixed size: the library's BufWriter allocates, and no program here does.
ghost use Rattle.std.specs.Prelude.{◌≤◌, ◌<◌};

use std::io;
use std::io::Write;

// The bytes that are not written out yet.
#[derive(Drop)]
pub struct Out<'a, P: Print> {
    rt: &'a P,
    bytes: [u8; 65536],
    len: usize,
    ghost within: { len ≤ 65536 },
}

impl<'a, P: Print> Out<'a, P> {
    pub fn new(rt: &'a P) -> Out<'a, P> {
        Out {
            rt,
            bytes: [0; 65536],
            len: 0,
        }
    }

    // Writes what there is no room for, piece by piece: each takes a byte at least.
    #[cold]
    #[inline(never)]
    fn spill(&mut self, words: &[u8]) -> io::Result<()> {
        let mut rest = words;
        for _ in words {
            if rest.is_empty() {
                break;
            }
            let n = self.write(rest)?;
            rest = &rest[n..];
        }
        Ok(())
    }
}

impl<P: Print> Write for Out<'_, P> {
    // A full buffer is written out first.
    fn write(&mut self, words: &[u8]) -> io::Result<usize> {
        if self.len == 65536 {
            self.flush()?;
        }
        let n = words.len().min(65536 - self.len);
        let end = self.len + n;
        self.bytes[self.len..end].copy_from_slice(&words[..n]);
        self.len = end;
        Ok(n)
    }

    // A piece for which there is room is put at once.
    #[inline(always)]
    fn write_all(&mut self, words: &[u8]) -> io::Result<()> {
        let end = self.len + words.len();
        if end > 65536 {
            return self.spill(words);
        }
        self.bytes[self.len..end].copy_from_slice(words);
        self.len = end;
        Ok(())
    }

    fn flush(&mut self) -> io::Result<()> {
        self.rt.write_all(&self.bytes[..self.len])?;
        self.len = 0;
        Ok(())
    }
}

fn digit(d: u8) -> u8
    requires { d < 16 }
{
    if d < 10 { b'0' + d } else { b'a' - 10 + d }
}

// Bytes as hex, or - for none.
pub fn hex<W: Write>(out: &mut W, bytes: &[u8]) -> io::Result<()> {
    if bytes.is_empty() {
        return out.write_all(b"-");
    }
    for chunk in bytes.chunks(64) {
        let mut digits = [0; 128];
        for (two, c) in digits.chunks_exact_mut(2).zip(chunk) {
            two[0] = digit(c / 16);
            two[1] = digit(c % 16);
        }
        out.write_all(&digits[..2 * chunk.len().min(64)])?;
    }
    Ok(())
}
