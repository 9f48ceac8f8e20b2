//! Plays a script of a store's calls from standard input, and prints what each gave.
#![tactic(auto)]

mod fixture;
mod held;
mod parts;
mod playing;
mod step;
mod text;

use std::io;

fn main(rt: HostRuntime) -> io::Result<()> {
    let alloc = rt.alloc();
    let mut held = None;
    for line in rt.lines(alloc) {
        let line = line?;
        match step::step_of(&line) {
            Some(step) => {
                let text = playing::play(alloc, &mut held, step)?;
                println!(rt; "{line}: {text}")?;
            }
            None => println!(rt; "{line}")?,
        }
    }
    Ok(())
}
