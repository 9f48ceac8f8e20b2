//! A replica's data as text.
use crate::held::Seen;
use ag_durable::{Came, Durable};
use ag_model::answer::Cell;
use ag_model::record::Record;
use ag_outside::mem_disk::MemDisk;
use ag_page::Got;
use std::alloc::{AllocError, Global};

/// Adds an item to a list of them.
fn add(text: &mut String, item: &str, between: &str) -> Result<(), AllocError> {
    if !text.is_empty() {
        text.push_str(between)?;
    }
    text.push_str(item)
}

/// The pages that an event names, or `-`.
fn named_text(alloc: Global, kept: &Durable<MemDisk>) -> Result<String, AllocError> {
    let mut text = String::new(alloc);
    for page in kept.progress().named.as_slice() {
        add(&mut text, &format!(in alloc; "{page}")?, ",")?;
    }
    if text.is_empty() {
        text.push_str("-")?;
    }
    Ok(text)
}

/// How far an event has come: its end, with its writes and steps and the pages that it names.
pub fn progress_text(alloc: Global, kept: &Durable<MemDisk>) -> Result<String, AllocError> {
    let progress = kept.progress();
    let came = match progress.came {
        Came::Underway => "underway",
        Came::Stopped => "stopped",
        Came::Failed => "failed",
        Came::Unknown => "unknown",
    };
    let named = named_text(alloc, kept)?;
    format!(in alloc;
        "{came} writes={} steps={} pages={named}",
        progress.writes, progress.steps
    )
}

/// The records of the log by their kinds, and where its blocks end.
pub fn log_text(alloc: Global, kept: &Durable<MemDisk>) -> Result<String, AllocError> {
    let log = kept.log();
    let mut text = format!(in alloc; "{}", log.end())?;
    for record in log.records() {
        let one = match record {
            Record::Term { term } => format!(in alloc; " term{term}")?,
            Record::Put { key, .. } => format!(in alloc; " put{key}")?,
            _ => format!(in alloc; " other")?,
        };
        text.push_str(&one)?;
    }
    Ok(text)
}

/// The master's incarnation, term, state, cut and redo start, and whether a block can follow the log.
pub fn master_text(alloc: Global, kept: &Durable<MemDisk>) -> Result<String, AllocError> {
    let m = kept.master();
    format!(in alloc;
        "incarnation={} term={} state={} cut={} undo={} redo={} pages={} replica={} appends={}",
        m.incarnation,
        m.term,
        m.state,
        m.cut,
        m.undo,
        m.redo,
        m.pages,
        m.replica,
        kept.can_append()
    )
}

/// What is seen of an image: sound with its first byte, torn or lost, and the marks of its sectors.
pub fn look_text(alloc: Global, look: &Seen) -> Result<String, AllocError> {
    let mut text = match look.got {
        Got::Sound => format!(in alloc; "sound {}", look.first)?,
        Got::Torn => format!(in alloc; "torn")?,
        Got::Lost => format!(in alloc; "lost")?,
    };
    for cell in &look.cells {
        let one = match cell {
            Cell::Mark(mark) => format!(in alloc; " {mark}")?,
            Cell::Lost => format!(in alloc; " ?")?,
        };
        text.push_str(&one)?;
    }
    Ok(text)
}

/// The suspect rows, each as `page:kind:count:repaired`, or `-`.
pub fn rows_text(alloc: Global, kept: &Durable<MemDisk>) -> Result<String, AllocError> {
    let mut text = String::new(alloc);
    match kept.suspects().rows() {
        Ok(rows) => {
            for row in rows.as_slice() {
                let repaired = u8::from(row.repaired);
                let one = format!(in alloc; "{}:{}:{}:{repaired}", row.page, row.kind, row.count)?;
                add(&mut text, &one, " ")?;
            }
            if text.is_empty() {
                text.push_str("-")?;
            }
            Ok(text)
        }
        Err(_) => format!(in alloc; "no memory"),
    }
}
