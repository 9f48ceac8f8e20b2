//! Plays steps of a primary's transactions from standard input, and prints what each gave.
#![tactic(auto)]

mod stand;
mod steps;
mod texts;
mod words;

use crate::stand::Stand;
use ag_txn::laws;
use std::io;

fn main(rt: HostRuntime) -> io::Result<()> {
    laws::pages_seen();
    laws::stay_effective();
    laws::copies_had();
    let alloc = rt.alloc();
    let mut stand = None;
    for line in rt.lines(alloc) {
        let line = line?;
        if line.starts_with("#") {
            stand = Stand::new(alloc);
            println!(rt; "{line}")?;
        } else if let Some(now) = &mut stand {
            let text = steps::play(alloc, now, &line)?;
            println!(rt; "{line} | {text}")?;
        }
    }
    Ok(())
}
