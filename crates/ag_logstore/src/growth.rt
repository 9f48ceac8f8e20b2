//! More records at the end of a log.
ghost use Rattle.std.specs.Prelude.{◌≡◌, ◌+◌, ◌^◌, ◌<◌, ◌++◌, ◌∷◌, [], length, OnOk, OnErr};
ghost use Rattle.ag_model.specs.Starts.{start_by};
ghost use Rattle.ag_ends.specs.Starts.{starts_after};

use ag_model::config::TermStart;
use ag_model::record::{Record, RecordList};
use ag_model::value::NoMemory;

/// Moves a block to the end of the records, with its end and its starts, or leaves all as it was.
pub(crate) fn grow(
    records: &mut RecordList,
    ends: &mut Vec<u64>,
    starts: &mut Vec<TermStart>,
    block: &mut RecordList,
) -> Result<(), NoMemory>
    ensures records { OnOk result (records.new ≡ records.old ++ block.old) }
    ensures ends { OnOk result (ends.new.items ≡ ends.old.items ++ (length records.old + length block.old) ∷ []) }
    ensures starts { OnOk result (starts.new.items ≡ starts.old.items ++ starts_after (length records.old) block.old) }
    ensures block { OnOk result (block.new ≡ []) }
    ensures records_kept { OnErr result (records.new ≡ records.old) }
    ensures ends_kept { OnErr result (ends.new.items ≡ ends.old.items) }
    ensures starts_kept { OnErr result (starts.new.items ≡ starts.old.items) }
    ensures block_kept { OnErr result (block.new ≡ block.old) }
{
    let before = records.len() as u64;
    let end = before.checked_add(block.len() as u64).ok_or(NoMemory)?;
    if ends.push(end).is_err() {
        return Err(NoMemory);
    }
    let grown = grow_records(records, starts, block);
    if grown.is_err() {
        ends.pop();
    }
    grown
}

/// Moves records to the end, with the starts in them, or leaves all as it was.
fn grow_records(
    records: &mut RecordList,
    starts: &mut Vec<TermStart>,
    block: &mut RecordList,
) -> Result<(), NoMemory>
    requires { length records.old + length block.old < 2 ^ 64 }
    ensures records { OnOk result (records.new ≡ records.old ++ block.old) }
    ensures starts { OnOk result (starts.new.items ≡ starts.old.items ++ starts_after (length records.old) block.old) }
    ensures block { OnOk result (block.new ≡ []) }
    ensures records_kept { OnErr result (records.new ≡ records.old) }
    ensures starts_kept { OnErr result (starts.new.items ≡ starts.old.items) }
    ensures block_kept { OnErr result (block.new ≡ block.old) }
{
    let count = starts.len();
    push_starts(starts, records.len() as u64, block.as_slice())?;
    if records.append(block).is_err() {
        starts.truncate(count);
        return Err(NoMemory);
    }
    Ok(())
}

/// Adds the starts in records that come after an LSN, or none.
fn push_starts(starts: &mut Vec<TermStart>, before: u64, records: &[Record]) -> Result<(), NoMemory>
    requires { before + length records.now < 2 ^ 64 }
    ensures ok { OnOk result (starts.new.items ≡ starts.old.items ++ starts_after before records.now) }
    ensures err { OnErr result (starts.new.items ≡ starts.old.items) }
{
    let count = starts.len();
    let mut lsn = before;
    for record in records {
        lsn += 1;
        if push_start(starts, lsn, record).is_err() {
            starts.truncate(count);
            return Err(NoMemory);
        }
    }
    Ok(())
}

/// Adds the start that a record at an LSN is, if it is one.
fn push_start(starts: &mut Vec<TermStart>, lsn: u64, entry: &Record) -> Result<(), NoMemory>
    ensures ok { OnOk result (starts.new.items ≡ starts.old.items ++ start_by lsn entry.now) }
    ensures err { OnErr result (starts.new.items ≡ starts.old.items) }
{
    if let Record::Term { term } = entry
        && starts.push(TermStart { term: *term, lsn }).is_err()
    {
        return Err(NoMemory);
    }
    Ok(())
}
