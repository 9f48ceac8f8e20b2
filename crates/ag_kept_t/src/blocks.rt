//! The records of blocks. Each function tells that a block can have them, and nothing else.
ghost use Rattle.std.specs.Prelude.{◌≤◌, IfOk};
ghost use Rattle.ag_record.specs.Spelling.{ArePayload};

use ag_model::list::ListOf;
use ag_model::record::{Record, RecordList};
use ag_model::value::{NoMemory, Value};
use std::alloc::Global;

/// So many Puts of 79 bytes.
pub fn puts(alloc: Global, count: u64) -> Result<RecordList, NoMemory>
    requires least { 1 ≤ count }
    requires most { count ≤ 196 }
    ensures { IfOk result ArePayload }
{
    let mut records = ListOf::new(alloc);
    for key in 0..count as u32 {
        let value = Value {
            len: 64,
            bytes: [7; 64],
        };
        records.push(Record::Put { txn: 1, key, value })?;
    }
    Ok(records)
}

/// The block that starts term 1.
pub fn opening(alloc: Global) -> Result<RecordList, NoMemory>
    ensures { IfOk result ArePayload }
{
    let mut records = ListOf::new(alloc);
    records.push(Record::Term { term: 1 })?;
    Ok(records)
}

/// The Put of key 5 and its Commit.
pub fn put_and_commit(alloc: Global) -> Result<RecordList, NoMemory>
    ensures { IfOk result ArePayload }
{
    let mut bytes = [0; 64];
    bytes[0] = 0xaa;
    let mut records = ListOf::new(alloc);
    records.push(Record::Put {
        txn: 1,
        key: 5,
        value: Value { len: 1, bytes },
    })?;
    let pages = ListOf::from_vec(Vec::from_slice(alloc, &[21])?);
    records.push(Record::Commit { txn: 1, pages })?;
    Ok(records)
}

/// A Put and its Commit, and the start of a term unless it is term 0.
pub fn with_start(alloc: Global, term: u64) -> Result<RecordList, NoMemory>
    ensures { IfOk result ArePayload }
{
    let value = Value {
        len: 64,
        bytes: [7; 64],
    };
    let pages = ListOf::from_vec(Vec::from_slice(alloc, &[16, 19])?);
    let mut block = ListOf::new(alloc);
    block.push(Record::Put {
        txn: 1,
        key: 2,
        value,
    })?;
    block.push(Record::Commit { txn: 1, pages })?;
    if term != 0 {
        block.push(Record::Term { term })?;
    }
    Ok(block)
}
