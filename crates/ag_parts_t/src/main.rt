//! Plays steps of what a resume is made of from standard input, and prints what each gave: masters on a disk, forks and plans. A line
//! that is no step is printed as it is. The steps on a log work on the bytes that a step before them holds.
#![tactic(auto)]

mod masters;
mod reverting;
mod sets;
mod words;

use ag_outside::mem_disk::MemDisk;
use ag_outside::scripted::Scripted;
use std::alloc::{AllocError, Global};
use std::io;

/// What a line gave, if it is a step: one on the disk, or else one on logs and masters.
fn step(
    alloc: Global,
    disk: &mut Scripted<MemDisk>,
    log: &mut Vec<u8>,
    line: &str,
) -> Result<Option<String>, AllocError> {
    let (name, text) = line.split_once(' ').unwrap_or((line, ""));
    match masters::step(alloc, disk, name, text)? {
        Some(told) => Ok(Some(told)),
        None => reverting::step(alloc, log, name, text),
    }
}

fn main(rt: HostRuntime) -> io::Result<()> {
    let alloc = rt.alloc();
    let mut disk = masters::new_disk(alloc);
    let mut log = Vec::new(alloc);
    for line in rt.lines(alloc) {
        let line = line?;
        match step(alloc, &mut disk, &mut log, &line)? {
            Some(told) => println!(rt; "{line}: {told}")?,
            None => println!(rt; "{line}")?,
        }
    }
    Ok(())
}
