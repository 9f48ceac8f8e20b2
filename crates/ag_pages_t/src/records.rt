//! The blocks of a log, record by record.
use crate::words::{at, byte, long, place, short};
use ag_model::record::{PageList, Record};
use ag_model::value::Value;
use std::alloc::{AllocError, Global};

/// The records of each block.
pub type Blocks = Vec<Vec<Record>>;

/// A value of one byte.
fn value(byte: u8) -> Value {
    let mut bytes = [0; 64];
    bytes[0] = byte;
    Value { len: 1, bytes }
}

/// A Put of one byte.
fn put(txn: u64, key: u64, byte_of: u64) -> Record {
    Record::Put {
        txn,
        key: long(key),
        value: value(byte(byte_of)),
    }
}

/// The pages after a transaction.
fn pages(alloc: Global, n: &[u64]) -> Result<PageList, AllocError> {
    let mut pages = PageList::new(alloc);
    for page in n.get(1..).unwrap_or(&[]) {
        pages.push(short(*page))?;
    }
    Ok(pages)
}

/// Adds Puts of a transaction: from this key on, so far apart, and so many. Each puts its place among them.
fn puts(records: &mut Vec<Record>, n: &[u64]) -> Result<(), AllocError> {
    for i in 0..at(n, 3) {
        let key = at(n, 1).wrapping_add(i.wrapping_mul(at(n, 2)));
        records.push(put(at(n, 0), key, i))?;
    }
    Ok(())
}

/// Adds a record to the last block.
fn add(alloc: Global, records: &mut Vec<Record>, verb: &str, n: &[u64]) -> Result<(), AllocError> {
    match verb {
        "put" => records.push(put(at(n, 0), at(n, 1), at(n, 2)))?,
        "puts" => puts(records, n)?,
        "del" => records.push(Record::Del {
            txn: at(n, 0),
            key: long(at(n, 1)),
        })?,
        "commit" => records.push(Record::Commit {
            txn: at(n, 0),
            pages: pages(alloc, n)?,
        })?,
        "abort" => records.push(Record::Abort {
            txn: at(n, 0),
            pages: pages(alloc, n)?,
        })?,
        "trim" => records.push(Record::Trim {
            page: short(at(n, 0)),
            horizon: at(n, 1),
        })?,
        "term" => records.push(Record::Term { term: at(n, 0) })?,
        _ => {}
    }
    Ok(())
}

/// Plays a step: no blocks, one block more, or a record of the last one.
pub fn play(alloc: Global, blocks: &mut Blocks, verb: &str, n: &[u64]) -> Result<(), AllocError> {
    match verb {
        "none" => blocks.clear(),
        "block" => blocks.push(Vec::new(alloc))?,
        _ => {
            if let Some(records) = blocks.last_mut() {
                add(alloc, records, verb, n)?;
            }
        }
    }
    Ok(())
}

/// The records of the blocks from one on and before another one.
pub fn between(
    alloc: Global,
    blocks: &Blocks,
    first: u64,
    last: u64,
) -> Result<Vec<Record>, AllocError> {
    let mut out = Vec::new(alloc);
    for block in blocks.get(place(first)..place(last)).unwrap_or(&[]) {
        let mut more = block.clone()?;
        out.append(&mut more)?;
    }
    Ok(out)
}
