// The lines of the standard input, read by way of a chunk of it: the library's BufReader allocates, and no program here does.
ghost use Rattle.std.specs.Prelude.{◌≤◌, length, IfOk, IfSome};

use crate::Fault;
use std::io;
use std::io::Read;

// A line as far as it is read. One of more than 20,000 bytes is too long, and only counted.
#[derive(Drop)]
struct Kept {
    bytes: [u8; 20000],
    len: usize,
}

impl Kept {
    fn add(&mut self, more: &[u8]) {
        let end = self.len.saturating_add(more.len());
        if end <= 20000 {
            self.bytes[self.len..end].copy_from_slice(more);
        }
        self.len = end;
    }

    fn whole(&self) -> Result<&[u8], Fault>
        ensures { IfOk result (λ line. length line.now ≤ 20000) }
    {
        if self.len > 20000 {
            return Err(Fault::BadLine);
        }
        Ok(&self.bytes[..self.len])
    }
}

// What of the chunk is not taken yet, and whether the input's end is reached.
#[derive(Clone, Copy)]
pub struct Source {
    at: usize,
    end: usize,
    ended: bool,
    ghost rest: { at ≤ end },
    ghost within: { end ≤ 65536 },
}

// The reader, its chunk, where the reading stands in it, and the line.
#[derive(Drop)]
pub struct Lines<R: Read> {
    reader: R,
    chunk: [u8; 65536],
    source: Source,
    line: Kept,
}

impl<R: Read> Lines<R> {
    // Nothing is read yet.
    pub fn new(reader: R) -> Lines<R> {
        Lines {
            reader,
            chunk: [0; 65536],
            source: Source {
                at: 0,
                end: 0,
                ended: false,
            },
            line: Kept {
                bytes: [0; 20000],
                len: 0,
            },
        }
    }

    // Takes the chunk's bytes to the line's end, or the chunk's: whether the line ends there.
    fn taken(&mut self) -> bool {
        let Lines {
            chunk,
            source,
            line,
            ..
        } = self;
        let rest = &chunk[source.at..source.end];
        match rest.iter().position(|c| *c == b'\n') {
            Some(n) => {
                line.add(&rest[..n]);
                source.at += n + 1;
                true
            }
            None => {
                line.add(rest);
                source.at = source.end;
                false
            }
        }
    }

    // Reads once; nothing more is the end.
    fn fill(&mut self) -> io::Result<()> {
        let n = self.reader.read(&mut self.chunk)?;
        self.source = Source {
            at: 0,
            end: n,
            ended: n == 0,
        };
        Ok(())
    }

    // Reads to the line's end: whether there is a line. The last may lack its newline.
    fn complete(&mut self) -> io::Result<bool> {
        for _ in 0..u64::MAX {
            if self.taken() {
                return Ok(true);
            }
            if self.source.ended {
                return Ok(self.line.len > 0);
            }
            self.fill()?;
        }
        Ok(false)
    }

    // The next line, if there is one.
    pub fn next_line(&mut self) -> io::Result<Option<Result<&[u8], Fault>>>
        ensures { IfOk result (λ next. IfSome next (λ line. IfOk line (λ bytes. length bytes.now ≤ 20000))) }
    {
        self.line.len = 0;
        if !self.complete()? {
            return Ok(None);
        }
        Ok(Some(self.line.whole()))
    }
}
