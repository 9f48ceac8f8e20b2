//! Plays the cases of standard input, and prints how each ends and what it writes.
#![tactic(auto)]

mod case;
mod committed;
mod groups;
mod played;
mod statuses;
mod stops;
mod texts;

use case::Case;
use std::io;

fn main(rt: HostRuntime) -> io::Result<()> {
    let alloc = rt.alloc();
    let mut case = Case::new(alloc);
    for line in rt.lines(alloc) {
        let line = line?;
        case::take_line(&rt, &mut case, &line)?;
    }
    Ok(())
}
