//! Records that a stripe is to redo.
use crate::words::{byte, number, page};
use ag_model::record::{PageList, Record};
use ag_model::value::Value;
use std::alloc::{AllocError, Global};

/// A key, which is none so great.
fn key(n: u64) -> u32 {
    match u32::try_from(n) {
        Ok(key) => key,
        Err(_) => u32::MAX,
    }
}

/// A value of so many bytes, at most 64, each of which is this one.
fn value(len: u8, byte: u8) -> Value {
    let mut bytes = [0; 64];
    let len = len.min(64);
    for at in bytes.iter_mut().take(usize::from(len)) {
        *at = byte;
    }
    Value { len, bytes }
}

/// The pages after a transaction.
fn pages(alloc: Global, numbers: &[u64]) -> Result<PageList, AllocError> {
    let mut pages = PageList::new(alloc);
    for i in 1..numbers.len() {
        pages.push(page(numbers, i))?;
    }
    Ok(pages)
}

/// Adds Puts of 64 bytes of a transaction: from this key on, so far apart, and so many.
fn puts(records: &mut Vec<Record>, n: &[u64]) -> Result<(), AllocError> {
    for i in 0..number(n, 3) {
        let next = number(n, 1).wrapping_add(i.wrapping_mul(number(n, 2)));
        records.push(Record::Put {
            txn: number(n, 0),
            key: key(next),
            value: value(64, 7),
        })?;
    }
    Ok(())
}

/// Adds one record. The answer is false where there is no such record.
fn one(
    alloc: Global,
    records: &mut Vec<Record>,
    step: &str,
    n: &[u64],
) -> Result<bool, AllocError> {
    let txn = number(n, 0);
    let record = match step {
        "put" => Record::Put {
            txn,
            key: key(number(n, 1)),
            value: value(1, byte(n, 2)),
        },
        "del" => Record::Del {
            txn,
            key: key(number(n, 1)),
        },
        "commit" => Record::Commit {
            txn,
            pages: pages(alloc, n)?,
        },
        "abort" => Record::Abort {
            txn,
            pages: pages(alloc, n)?,
        },
        "trim" => Record::Trim {
            page: page(n, 0),
            horizon: number(n, 1),
        },
        "term" => Record::Term { term: txn },
        _ => return Ok(false),
    };
    records.push(record)?;
    Ok(true)
}

/// Adds a record, or some, or lets all go. The answer is false where there is no such step.
pub fn play(
    alloc: Global,
    records: &mut Vec<Record>,
    step: &str,
    n: &[u64],
) -> Result<bool, AllocError> {
    match step {
        "none" => records.clear(),
        "puts" => puts(records, n)?,
        _ => return one(alloc, records, step, n),
    }
    Ok(true)
}
