//! The events of a script, one after another.
ghost use Rattle.std.specs.Prelude.{◌≡◌, ◌≤◌, IsErrOf, OnOk, IfOk, length, true};
ghost use Rattle.std.specs.List.{AllByRecursion};
ghost use Rattle.ag_outside.specs.Counts.{HasRisen};
ghost use Rattle.ag_outside.specs.MemDisks.{mem_reads};
ghost use Rattle.ag_rules.specs.Script.{IsConfig, IsScript};
ghost use Rattle.ag_built.specs.Built.{AreBuilt, HaveValues};
ghost use Rattle.ag_transcript.specs.Transcript.{header_text, line};
ghost use Rattle.ag_transcript.specs.Answers.{answer_text};
ghost use Rattle.ag_group.specs.Blank.{IsBlankDisk};
ghost use Rattle.ag_group.specs.Ran.{HasRun, HasRunInPart};

use crate::group::Group;
use ag_model::answer::Answer;
use ag_model::config::Config;
use ag_model::event::Event;
use ag_model::value::NoMemory;
use ag_outside::mem_disk::{MemDisk, SECTORS};
use ag_outside::stream::Sink;
use ag_outside::whole::write_all;
use ag_transcript::answer::print_answer;
use ag_transcript::header::print_header;
use std::alloc::Global;

/// Why a run ended early.
#[derive(Clone, Copy, Debug, PartialEq, Eq)]
pub(crate) enum RunError {
    WriteFault,
    NoMemory,
}

/// Runs the events on disks in memory and writes the transcript, each line as a piece of its own. No call of these disks fails,
/// so a group gives up at want of memory alone.
pub(crate) fn run_events<K: Sink>(
    alloc: Global,
    c: &Config,
    events: &[Event],
    sink: &mut K,
) -> Result<(), RunError>
    requires config { IsConfig c.now }
    requires script { IsScript c.now events.now }
    requires built { AreBuilt events.now }
    requires values { HaveValues events.now }
    ensures ok { OnOk result (HasRun c.now events.now (K.taken sink.old) (K.taken sink.new)) }
    ensures part { HasRunInPart c.now events.now (K.taken sink.old) (K.taken sink.new) }
    ensures fault { IsErrOf result RunError.WriteFault → HasRisen (K.faults sink.old) (K.faults sink.new) }
    ensures faults { K.faults sink.old ≤ K.faults sink.new }
{
    let Ok(disks) = blank_disks(alloc, c.modes.len()) else {
        return Err(RunError::NoMemory);
    };
    let Ok(mut group) = Group::create(alloc, c, disks) else {
        return Err(RunError::NoMemory);
    };
    let Ok(header) = header_line(alloc, c) else {
        return Err(RunError::NoMemory);
    };
    let Ok(()) = write_all(sink, header.as_slice()) else {
        return Err(RunError::WriteFault);
    };
    'events: for event in events {
        let Ok(answer) = group.step(alloc, event) else {
            return Err(RunError::NoMemory);
        };
        let Ok(text) = answer_line(alloc, &answer) else {
            return Err(RunError::NoMemory);
        };
        let Ok(()) = write_all(sink, text.as_slice()) else {
            return Err(RunError::WriteFault);
        };
    }
    Ok(())
}

/// So many disks in memory, none of whose calls fails.
fn blank_disks(alloc: Global, count: usize) -> Result<Vec<MemDisk>, NoMemory>
    ensures each { IfOk result (λ disks. length disks.items ≡ count) }
    ensures fit { IfOk result (λ disks. AllByRecursion (λ d. IsBlankDisk SECTORS true (mem_reads d)) disks.items) }
{
    let mut disks = Vec::new(alloc);
    for _ in 0..count {
        disks.push(MemDisk::new(alloc, Vec::new(alloc), false))?;
    }
    Ok(disks)
}

/// The first line, with its end.
fn header_line(alloc: Global, c: &Config) -> Result<Vec<u8>, NoMemory>
    ensures { IfOk result (λ out. out.items ≡ line (header_text c.now)) }
{
    let mut out = Vec::new(alloc);
    print_header(c, &mut out)?;
    out.push(b'\n')?;
    Ok(out)
}

/// An answer's line, with its end.
fn answer_line(alloc: Global, a: &Answer) -> Result<Vec<u8>, NoMemory>
    ensures { IfOk result (λ out. out.items ≡ line (answer_text a.now)) }
{
    let mut out = Vec::new(alloc);
    print_answer(a, &mut out)?;
    out.push(b'\n')?;
    Ok(out)
}
