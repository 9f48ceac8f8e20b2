//! What is printed of an event.
use ag_model::answer::Answer;
use ag_writes::{Reach, Write};
use std::alloc::{AllocError, Global};

/// How far some writes came.
pub fn said_reach(alloc: Global, reach: &Reach) -> Result<String, AllocError> {
    match reach {
        Reach::End => format!(in alloc; "end"),
        Reach::Stop { write, step, torn } => {
            let torn = torn.as_slice();
            format!(in alloc; "stop write {write} step {step} torn {torn:?}")
        }
        Reach::Fault { step } => format!(in alloc; "fault step {step}"),
    }
}

/// An answer that an event of these plans may have.
pub fn said_answer(alloc: Global, answer: &Answer) -> Result<String, AllocError> {
    match answer {
        Answer::PageBad => format!(in alloc; "bad"),
        Answer::Stopped { write, step, torn } => {
            let torn = torn.as_slice();
            format!(in alloc; "stopped {write} step={step} torn={torn:?}")
        }
        Answer::DeviceFailed { node, step } => {
            format!(in alloc; "device_failed {node} step={step}")
        }
        _ => format!(in alloc; "another answer"),
    }
}

/// One row.
fn said_row(alloc: Global, row: &Write) -> Result<String, AllocError> {
    match row {
        Write::Note { page, kind } => format!(in alloc; "note {page} {kind}"),
        Write::Repaired { page } => format!(in alloc; "repaired {page}"),
        _ => format!(in alloc; "no row"),
    }
}

/// Rows, in the order in which they were written.
pub fn said_rows(alloc: Global, rows: &[Write]) -> Result<String, AllocError> {
    let mut texts = Vec::new(alloc);
    for row in rows {
        texts.push(said_row(alloc, row)?)?;
    }
    format!(in alloc; "{texts:?}")
}
