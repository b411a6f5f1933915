// Drives one image and one session by a list of commands: a line of input, a line of output.
#![tactic(auto)]

mod asking;
mod calls;
mod writing;

use calls::Tag;
use std::io;

fn main(rt: HostRuntime) -> io::Result<()> {
    lines::run(&rt, &mut Tag::new())
}
