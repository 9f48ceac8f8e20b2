//! Plays steps on a disk, a stripe and the pages of a replica from standard input. It prints each line, and after it what the step
//! gave.
#![tactic(auto)]

mod disk_steps;
mod held;
mod pages_steps;
mod records;
mod showing;
mod stripe_steps;
mod words;

use std::io;

fn main(rt: HostRuntime) -> io::Result<()> {
    let mut held = held::nothing(rt.alloc());
    for line in rt.lines(rt.alloc()) {
        let line = line?;
        if line.starts_with("#") {
            println!(rt; "{line}")?;
        } else {
            print!(rt; "{line}:")?;
            held::play(&rt, &mut held, &line)?;
            println!(rt; "")?;
        }
    }
    Ok(())
}
