//! Groups of a primary and a secondary, whose disks may fail.
ghost use Rattle.std.specs.Prelude.{◌≡◌, ◌<◌, ◌≤◌, ◌^◌, ◌+◌, IfOk, length, true, ℕ};
ghost use Rattle.std.specs.List.{AllByRecursion};
ghost use Rattle.ag_outside.specs.MemDisks.{mem_reads};
ghost use Rattle.ag_rules.specs.Script.{IsConfig};
ghost use Rattle.ag_group.specs.Blank.{IsBlankDisk};

use ag_group::fault::StepFault;
use ag_group::group::Group;
use ag_model::answer::Answer;
use ag_model::config::{Config, Mode, ModeList};
use ag_outside::mem_disk::{MemDisk, SECTORS};
use ag_script::script::read_events;
use ag_transcript::answer::print_answer;
use std::alloc::{AllocError, Global};

/// How a script ends.
#[derive(Clone, Copy, Debug)]
pub enum Ended {
    /// It can't be read.
    NoScript,
    /// All its events were answered.
    Done,
    Gave(StepFault),
}

/// A primary and a secondary, with so many pages.
fn two_replicas(alloc: Global, pages: u16) -> Result<Config, AllocError>
    requires low { 16 ≤ pages }
    requires high { pages ≤ 2048 }
    ensures config { IfOk result (λ c. IsConfig c) }
    ensures two { IfOk result (λ c. length c.modes ≡ 2) }
{
    Ok(Config {
        pages,
        modes: ModeList::from_vec(vec![in alloc; Mode::Sync, Mode::Sync]?),
        workers: 4,
        readers: 2,
    })
}

/// Two disks in memory, which fail at these calls.
fn two_disks(alloc: Global, first: u64, second: u64) -> Result<Vec<MemDisk>, AllocError>
    ensures two { IfOk result (λ disks. length disks.items ≡ 2) }
    ensures fit { IfOk result (λ disks. AllByRecursion (λ d. IsBlankDisk SECTORS true (mem_reads d)) disks.items) }
{
    let first = MemDisk::new(alloc, Vec::from_slice(alloc, &[first])?, false);
    let second = MemDisk::new(alloc, Vec::from_slice(alloc, &[second])?, false);
    Ok(vec![in alloc; first, second]?)
}

/// Adds an answer as a line, and tells whether there was memory for it.
fn push_answer(text: &mut Vec<u8>, answer: &Answer) -> bool {
    print_answer(answer, text).is_ok() && text.push(b'\n').is_ok()
}

/// Answers the events of a script, with so many pages, and tells how they end.
fn follow(
    alloc: Global,
    pages: u16,
    disks: Vec<MemDisk>,
    script: &[u8],
    told: &mut Vec<u8>,
) -> Result<Ended, AllocError>
    requires low { 16 ≤ pages }
    requires high { pages ≤ 2048 }
    requires two { length disks.items ≡ 2 }
    requires fit { AllByRecursion (λ d. IsBlankDisk SECTORS true (mem_reads d)) disks.items }
    requires short { length script.now < 2 ^ 16 }
{
    let config = two_replicas(alloc, pages)?;
    let Ok(events) = read_events(alloc, script, 1, &config) else {
        return Ok(Ended::NoScript);
    };
    let mut group = match Group::create(alloc, &config, disks) {
        Ok(group) => group,
        Err((fault, _)) => return Ok(Ended::Gave(fault)),
    };
    'events: for event in events.as_slice() {
        match group.step(alloc, event) {
            Ok(answer) => {
                if !push_answer(told, &answer) {
                    return Ok(Ended::Gave(StepFault::NoMemory));
                }
            }
            Err(fault) => return Ok(Ended::Gave(fault)),
        }
    }
    Ok(Ended::Done)
}

/// How the events of a script end, and their answers, with so many pages, where the disks of A and B fail at these calls.
pub fn followed(
    alloc: Global,
    pages: u64,
    calls: (u64, u64),
    script: &[u8],
) -> Result<(Ended, Vec<u8>), AllocError> {
    let mut told = Vec::new(alloc);
    if script.len() >= 65_536 || pages < 16 || pages > 2048 {
        return Ok((Ended::NoScript, told));
    }
    let (first, second) = calls;
    let disks = two_disks(alloc, first, second)?;
    let ended = follow(alloc, pages as u16, disks, script, &mut told)?;
    Ok((ended, told))
}

/// `opens CALL CALL`: the fault with which a group doesn't open, and how many disks come back.
pub fn opens(alloc: Global, first: u64, second: u64) -> Result<String, AllocError> {
    let config = two_replicas(alloc, 16)?;
    let disks = two_disks(alloc, first, second)?;
    match Group::create(alloc, &config, disks) {
        Ok(_) => format!(in alloc; "open"),
        Err((fault, back)) => format!(in alloc; "{fault:?}, {} disks", back.len()),
    }
}
