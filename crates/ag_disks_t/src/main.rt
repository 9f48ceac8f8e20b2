//! Plays a script of sources, sinks, disks and pages from standard input, and prints what each step gave.
#![tactic(auto)]

mod calls;
mod disks;
mod pages;
mod streams;
mod words;

use crate::disks::Held;
use crate::streams::Streams;
use std::alloc::{AllocError, Global};
use std::io;

/// Plays a line: a step of streams, or else one of disks.
fn play(
    alloc: Global,
    streams: &mut Streams,
    held: &mut Held,
    line: &str,
) -> Result<String, AllocError> {
    match streams::play(alloc, streams, line)? {
        Some(text) => Ok(text),
        None => disks::play(alloc, held, line),
    }
}

fn main(rt: HostRuntime) -> io::Result<()> {
    let alloc = rt.alloc();
    let mut streams = Streams::new(alloc);
    let mut held = Held::Nothing;
    for line in rt.lines(alloc) {
        let line = line?;
        if line.starts_with("#") {
            println!(rt; "{line}")?;
        } else {
            let text = play(alloc, &mut streams, &mut held, &line)?;
            println!(rt; "{line}: {text}")?;
        }
    }
    Ok(())
}
