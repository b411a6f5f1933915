// The depot's half at a gate: a line asks for a command's frame, or for what a reply to it says, and a line answers it.
#![tactic(auto)]

mod asking;
mod telling;

use std::io;
use telling::Gate;

fn main(rt: HostRuntime) -> io::Result<()> {
    lines::run(&rt, &mut Gate::new())
}
