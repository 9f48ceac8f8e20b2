//! What an answer is as text.
use ag_model::value::Row;
use ag_txn::TxnFault;
use std::alloc::{AllocError, Global};

/// A fault.
fn fault_text(alloc: Global, fault: TxnFault) -> Result<String, AllocError> {
    match fault {
        TxnFault::Locked { txn } => format!(in alloc; "no 1222 {txn}"),
        TxnFault::Conflict { commit, snapshot } => {
            format!(in alloc; "no 3960 {commit} {snapshot}")
        }
        TxnFault::PageFull { need, free } => format!(in alloc; "no page_full {need} {free}"),
        TxnFault::BufferFull { need, free } => format!(in alloc; "no buffer_full {need} {free}"),
        TxnFault::Held { horizon, limit } => format!(in alloc; "no held {horizon} {limit}"),
        TxnFault::Spent => format!(in alloc; "no spent"),
        TxnFault::Nothing => format!(in alloc; "no nothing"),
        TxnFault::NoMemory => format!(in alloc; "no memory"),
    }
}

/// A number, with a word before it.
pub fn number_text(
    alloc: Global,
    word: &str,
    answer: Option<Result<u64, TxnFault>>,
) -> Result<String, AllocError> {
    match answer {
        None => format!(in alloc; "not called"),
        Some(Ok(number)) => format!(in alloc; "{word} {number}"),
        Some(Err(fault)) => fault_text(alloc, fault),
    }
}

/// The end of a transaction.
pub fn end_text(
    alloc: Global,
    answer: Option<Result<Option<u64>, TxnFault>>,
) -> Result<String, AllocError> {
    match answer {
        None => format!(in alloc; "not called"),
        Some(Ok(None)) => format!(in alloc; "ended"),
        Some(Ok(Some(lsn))) => format!(in alloc; "lsn {lsn}"),
        Some(Err(fault)) => fault_text(alloc, fault),
    }
}

/// A row: its length and its first byte.
pub fn row_text(alloc: Global, row: Option<Row>) -> Result<String, AllocError> {
    match row {
        None => format!(in alloc; "not called"),
        Some(Row::Absent) => format!(in alloc; "absent"),
        Some(Row::Found(value)) => {
            let [first, ..] = value.bytes;
            format!(in alloc; "row {} bytes {first}", value.len)
        }
    }
}
