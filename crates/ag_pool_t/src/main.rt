//! Plays steps of a pool of frames from standard input, and prints what each gave.
#![tactic(auto)]

mod playing;
mod records;
mod texts;
mod words;

use ag_pool::Pool;
use std::io;

fn main(rt: HostRuntime) -> io::Result<()> {
    let alloc = rt.alloc();
    let mut held: Option<Pool> = None;
    let mut records = Vec::new(alloc);
    for line in rt.lines(alloc) {
        let line = line?;
        if line.starts_with("#") {
            println!(rt; "{line}")?;
        } else {
            let text = playing::play(alloc, &mut held, &mut records, &line)?;
            println!(rt; "{line}: {text}")?;
        }
    }
    Ok(())
}
