//! Plays steps of a suspect list and its disk from standard input, and prints what each gave.
#![tactic(auto)]

mod lists;
mod texts;
mod words;

use crate::lists::Held;
use ag_suspect::laws;
use std::io;

fn main(rt: HostRuntime) -> io::Result<()> {
    laws::rows_are_read();
    laws::rows_stay();
    laws::same_rows();
    laws::blank_disks();
    laws::example_row();
    let alloc = rt.alloc();
    let mut held = Held::new(alloc);
    for line in rt.lines(alloc) {
        let line = line?;
        if line.starts_with("#") {
            println!(rt; "{line}")?;
        } else {
            let text = lists::play(alloc, &mut held, &line)?;
            println!(rt; "{line}: {text}")?;
        }
    }
    Ok(())
}
