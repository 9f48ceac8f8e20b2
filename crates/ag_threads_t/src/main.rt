//! Plays scenarios of a shared front from standard input, and prints what each line gave. A scenario ends with a line `close`. A line
//! `run` and a number has so many threads write, redo and read at a front of their own.
#![tactic(auto)]

mod answers;
mod blocks;
mod gate;
mod hands;
mod lines;
mod one_page;
mod opening;
mod playing;
mod runs;
mod scenario;
mod step;
mod texts;
mod turns;

use std::io;

fn main(rt: HostRuntime) -> io::Result<()> {
    let alloc = rt.alloc();
    let mut held = Vec::new(alloc);
    for line in rt.lines(alloc) {
        let text = lines::play(&rt, alloc, &mut held, line?)?;
        print!(rt; "{text}")?;
    }
    Ok(())
}
