//! Values as short texts.
use ag_model::record::Record;
use ag_model::value::Value;
use std::alloc::{AllocError, Global};

/// How many bytes, from the first on, are the same as the first.
fn run_length(bytes: &[u8]) -> usize {
    match bytes {
        [] => 0,
        [first, ..] => bytes.iter().take_while(|byte| *byte == first).count(),
    }
}

/// Bytes as hexadecimal digits; eight or more of one byte are said by their number, as `[07*1000]`.
pub fn said_bytes(alloc: Global, bytes: &[u8]) -> Result<String, AllocError> {
    let mut said = String::new(alloc);
    let mut skipped = 0;
    for (index, byte) in bytes.iter().enumerate() {
        if index < skipped {
            continue;
        }
        let run = run_length(&bytes[index..]);
        if run < 8 {
            write!(said, "{byte:02x}")?;
        } else {
            write!(said, "[{byte:02x}*{run}]")?;
            skipped = index.saturating_add(run);
        }
    }
    Ok(said)
}

/// A value: how many bytes it has, and its bytes up to the last one that isn't zero.
fn said_value(alloc: Global, value: &Value) -> Result<String, AllocError> {
    let len = value.len;
    let digits = hex::encode(alloc, value.bytes.as_slice())?;
    let digits = digits.trim_end_matches("00");
    format!(in alloc; "{len}:{digits}")
}

/// A record.
fn said_record(alloc: Global, record: &Record) -> Result<String, AllocError> {
    match record {
        Record::Put { txn, key, value } => {
            let value = said_value(alloc, value)?;
            format!(in alloc; "Put {txn} {key} {value}")
        }
        Record::Del { txn, key } => format!(in alloc; "Del {txn} {key}"),
        Record::Commit { txn, pages } => format!(in alloc; "Commit {txn} {:?}", pages.as_slice()),
        Record::Abort { txn, pages } => format!(in alloc; "Abort {txn} {:?}", pages.as_slice()),
        Record::Trim { page, horizon } => format!(in alloc; "Trim {page} {horizon}"),
        Record::Term { term } => format!(in alloc; "Term {term}"),
    }
}

/// Records.
pub fn said_records(alloc: Global, records: &[Record]) -> Result<String, AllocError> {
    let mut said = String::new(alloc);
    for (index, record) in records.iter().enumerate() {
        let between = if index == 0 { "" } else { ", " };
        let record = said_record(alloc, record)?;
        write!(said, "{between}{record}")?;
    }
    Ok(said)
}
