//! Plays a script of logs and of replicas on disks that stop and fail from standard input, and prints what each step gave.
#![tactic(auto)]

mod blocks;
mod logs;
mod replica;
mod replicas;
mod stored;
mod stores;
mod words;

use crate::replicas::Held;
use ag_logstore::HardenedLog;
use ag_outside::mem_disk::MemDisk;
use ag_outside::scripted::Scripted;
use std::alloc::{AllocError, Global};
use std::io;

/// What a script holds between its steps.
#[derive(Drop)]
struct Script {
    log: HardenedLog,
    disk: Scripted<MemDisk>,
    replica: Held,
}

/// Plays a line: a step of a log in memory, of a log on a disk, or else of a replica.
fn play(alloc: Global, script: &mut Script, line: &str) -> Result<String, AllocError> {
    if let Some(text) = logs::play(alloc, &mut script.log, line)? {
        return Ok(text);
    }
    match stores::play(alloc, &mut script.disk, line)? {
        Some(text) => Ok(text),
        None => replicas::play(alloc, &mut script.replica, line),
    }
}

fn main(rt: HostRuntime) -> io::Result<()> {
    let alloc = rt.alloc();
    let mut script = Script {
        log: HardenedLog::new(alloc),
        disk: Scripted::new(alloc, MemDisk::new(alloc, Vec::new(alloc), false)),
        replica: Held::Nothing,
    };
    for line in rt.lines(alloc) {
        let line = line?;
        if line.starts_with("#") {
            println!(rt; "{line}")?;
        } else {
            let text = play(alloc, &mut script, &line)?;
            println!(rt; "{line}: {text}")?;
        }
    }
    Ok(())
}
