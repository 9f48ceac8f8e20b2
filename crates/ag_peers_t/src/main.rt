//! Plays steps of what replicas know of one another from standard input, and prints what each gave: the register, what a primary
//! knows, links, pages that are asked for, and sessions. A line has steps between semicolons. A line that starts with `#` is printed
//! as it is.
#![tactic(auto)]

mod captures;
mod clusters;
mod links;
mod peers;
mod repairs;
mod sessions;
mod sets;
mod words;

use crate::peers::Peers;
use std::io;

fn main(rt: HostRuntime) -> io::Result<()> {
    let alloc = rt.alloc();
    let mut peers = Peers::new(alloc);
    for line in rt.lines(alloc) {
        let line = line?;
        if line.is_empty() || line.starts_with("#") {
            println!(rt; "{line}")?;
        } else {
            let text = peers.play(alloc, &line)?;
            println!(rt; "{line}: {text}")?;
        }
    }
    Ok(())
}
