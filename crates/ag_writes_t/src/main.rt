//! Performs batches of suspect rows on a home in memory, as standard input says, and prints how far each event came.
#![tactic(auto)]

mod home;
mod plans;
mod playing;
mod texts;
mod words;

use ag_writes::laws;
use std::io;

fn main(rt: HostRuntime) -> io::Result<()> {
    laws::performed_in_parts();
    laws::performed_is_cut();
    let alloc = rt.alloc();
    for line in rt.lines(alloc) {
        let line = line?;
        if line.starts_with("#") {
            println!(rt; "{line}")?;
        } else {
            let text = playing::play(alloc, &line)?;
            println!(rt; "{line}: {text}")?;
        }
    }
    Ok(())
}
