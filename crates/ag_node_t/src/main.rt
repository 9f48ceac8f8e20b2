//! Plays a script of a node's calls from standard input, and prints what each gave.
#![tactic(auto)]

mod fixture;
mod held;
mod playing;

use std::io;

fn main(rt: HostRuntime) -> io::Result<()> {
    let alloc = rt.alloc();
    let mut held = None;
    for line in rt.lines(alloc) {
        let line = line?;
        if line.starts_with('#') {
            println!(rt; "{line}")?;
        } else {
            let text = playing::play(alloc, &mut held, &line)?;
            println!(rt; "{line}: {text}")?;
        }
    }
    Ok(())
}
