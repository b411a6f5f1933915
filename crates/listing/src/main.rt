// Reads an image from standard input and writes where its sections stand (RULES 6.1).
#![tactic(auto)]

ghost use Rattle.std.specs.Prelude.{◌≤◌, length, IfOk};

use image::{Layout, Section};
use std::io;
use std::io::Read;

// Each section's name, offset and count.
fn sections(rt: &impl Print, y: Layout) -> io::Result<()> {
    println!(rt; "section offset words")?;
    let named = [
        ("STATUS", y.status),
        ("RESERVED", y.reserved),
        ("EPC", y.epc),
        ("TID", y.tid),
        ("USER", y.user),
        ("PERMA", y.perma),
        ("WORK", y.work),
    ];
    for (name, Section { at, words }) in named {
        println!(rt; "{name} {at} {words}")?;
    }
    Ok(())
}

fn list(rt: &impl Print, image: &[u8]) -> io::Result<()> {
    let y = match image::check(image) {
        Ok(y) => y,
        Err(refusal) => return println!(rt; "refused {}", u8::from(refusal)),
    };
    sections(rt, y)?;
    println!(rt; "blocks {}", y.blocks())?;
    println!(rt; "pending {}", bits::word(image, y.work.at as usize))
}

// Reads until the buffer is full or the input ends, and gives how many bytes it put there: the library's `read_to_end` allocates.
fn filled<R: Read>(reader: &mut R, buffer: &mut [u8]) -> io::Result<usize>
    ensures { IfOk result (λ n. n ≤ length buffer.new) }
{
    let mut done = 0;
    while done < buffer.len() {
        let n = reader.read(&mut buffer[done..])?;
        if n == 0 {
            return Ok(done);
        }
        done += n;
    }
    Ok(done)
}

// Input of more bytes than the largest image has is of a wrong length.
fn main(rt: HostRuntime) -> io::Result<()> {
    let mut reader = rt.reader();
    let mut buffer = [0u8; 9604];
    let n = filled(&mut reader, &mut buffer)?;
    let mut more = [0u8; 1];
    if reader.read(&mut more)? > 0 {
        return println!(rt; "refused 2");
    }
    list(&rt, &buffer[..n])
}
