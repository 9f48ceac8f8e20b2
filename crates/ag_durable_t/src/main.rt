//! Plays steps of a replica's data on a disk that stops and fails from standard input, and prints what each gave.
#![tactic(auto)]

mod blocks;
mod held;
mod playing;
mod texts;
mod words;

use crate::held::Held;
use ag_keeping::laws;
use std::io;

fn main(rt: HostRuntime) -> io::Result<()> {
    laws::syncs_mean();
    laws::blocks_mean();
    laws::masters_mean();
    laws::rows_mean();
    laws::pages_mean();
    laws::example_cuts();
    let alloc = rt.alloc();
    let mut held = Held::Nothing;
    for line in rt.lines(alloc) {
        let line = line?;
        if line.starts_with("#") {
            println!(rt; "{line}")?;
        } else {
            let text = playing::play(alloc, &mut held, &line)?;
            println!(rt; "{line}: {text}")?;
        }
    }
    Ok(())
}
