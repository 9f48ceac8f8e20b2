//! Plays steps of frames from standard input, a step a line, and prints what each gave.
#![tactic(auto)]

mod steps;

use crate::steps::Held;
use ag_frame::Frames;
use std::io;

fn main(rt: HostRuntime) -> io::Result<()> {
    let alloc = rt.alloc();
    let mut held = Held::new();
    for line in rt.lines(alloc) {
        let line = line?;
        if line.starts_with("#") {
            println!(rt; "{line}")?;
        } else {
            let text = steps::play(alloc, &mut held, &line)?;
            println!(rt; "{line}: {text}")?;
        }
    }
    Ok(())
}
