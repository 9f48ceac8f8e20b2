//! Plays steps on one page from standard input: its versions, its image and a home of images. It prints each line, and after it what
//! the step gave.
#![tactic(auto)]

mod building;
mod edits;
mod held;
mod home;
mod images;
mod showing;
mod words;

use std::io;

fn main(rt: HostRuntime) -> io::Result<()> {
    let mut held = held::nothing(rt.alloc());
    for line in rt.lines(rt.alloc()) {
        let line = line?;
        print!(rt; "{line}")?;
        held::play(&rt, &mut held, &line)?;
        println!(rt; "")?;
    }
    Ok(())
}
