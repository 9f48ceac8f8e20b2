//! Plays steps on one page from standard input, in its image and as a value. It prints each line, and
//! after it what the step gave and whether both are the same.
#![tactic(auto)]

mod building;
mod drawing;
mod edits;
mod page;
mod play;
mod reading;
mod words;

use std::io;

fn main(rt: HostRuntime) -> io::Result<()> {
    ag_inplace::laws::redone();
    ag_inplace::laws::spelled();
    let mut page = page::empty(rt.alloc(), &[]);
    for line in rt.lines(rt.alloc()) {
        let line = line?;
        print!(rt; "{line}")?;
        play::play(&rt, &mut page, &line)?;
        println!(rt; "")?;
    }
    Ok(())
}
