//! The records of blocks. Each function tells that a block can have them, and nothing else.
ghost use Rattle.std.specs.Prelude.{◌≤◌, IfOk};
ghost use Rattle.ag_record.specs.Spelling.{ArePayload};

use ag_model::list::ListOf;
use ag_model::record::{Record, RecordList};
use ag_model::value::{NoMemory, Value};
use std::alloc::Global;

/// The start of a term.
pub fn start(alloc: Global, term: u64) -> Result<RecordList, NoMemory>
    ensures { IfOk result ArePayload }
{
    let mut records = ListOf::new(alloc);
    records.push(Record::Term { term })?;
    Ok(records)
}

/// So many Puts of 79 bytes.
pub fn puts(alloc: Global, count: u64) -> Result<RecordList, NoMemory>
    requires least { 1 ≤ count }
    requires most { count ≤ 196 }
    ensures { IfOk result ArePayload }
{
    let mut records = ListOf::new(alloc);
    for key in 0..count as u32 {
        let value = Value {
            len: 64,
            bytes: [7; 64],
        };
        records.push(Record::Put { txn: 1, key, value })?;
    }
    Ok(records)
}
