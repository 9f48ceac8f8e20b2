//! The log of a front, in memory.
ghost use Rattle.std.specs.Prelude.{◌≡◌, ◌≢◌, ◌+◌, ◌^◌, ◌<◌, ◌≤◌, ◌++◌, ◌∷◌, [], ℕ, length, true, slice_index, IfOk, IfErr, OnOk, OnErr};
ghost use Rattle.ag_model.specs.Blocks.{with_block, after_to};
ghost use Rattle.ag_model.specs.Starts.{start_by};
ghost use Rattle.ag_model.specs.Prefixes.{IsBlockEnd};
ghost use Rattle.ag_model.specs.Proper.{IsProper, RisesFrom};
ghost use Rattle.ag_model.specs.Rows.{contains};
ghost use Rattle.ag_ends.specs.Starts.{starts_after, term_by};
ghost use Rattle.ag_front.specs.Fetches.{IsDispatchFault, IsFetched};

use crate::fault::{DispatchFault, Fetched};
use ag_model::config::TermStart;
use ag_model::list::ListOf;
use ag_model::message::Block;
use ag_model::record::{Log, Record, RecordList};
use ag_model::value::NoMemory;
use std::alloc::Global;
use std::marker::Model;

/// A log with its term starts, so that the term of a block is found without walking records. Contracts see the log.
#[derive(Drop)]
pub struct History {
    records: RecordList,
    /// The LSN at which each block ends.
    ends: Vec<u64>,
    /// The Term records, with their LSNs.
    starts: Vec<TermStart>,
}

impl Model for History {
    ghost use Rattle.std.specs.Prelude.{◌≡◌};
    ghost use Rattle.ag_model.specs.declared.record.Log.{Log};
    ghost use Rattle.ag_model.specs.Starts.{term_starts};

    ghost Value = { Log };

    ghost view = { λ h. record { records = h.records; ends = h.ends.items } };

    ghost invariant = { λ h. h.starts.items ≡ term_starts h.records };
}

impl History {
    /// The log, whose records are walked once for their term starts.
    pub(crate) fn of(alloc: Global, log: Log) -> Result<History, NoMemory>
        requires { length log.records < 2 ^ 64 }
        ensures { IfOk result (λ history. history ≡ log) }
    {
        let Log { records, ends } = log;
        let mut starts = Vec::new(alloc);
        push_starts(&mut starts, 0, records.as_slice())?;
        Ok(History {
            records,
            ends: ends.into_vec(),
            starts,
        })
    }

    /// The log.
    pub(crate) fn into_log(self) -> Log
        ensures { result ≡ self }
    {
        let History {
            records,
            ends,
            starts: _,
        } = self;
        Log {
            records,
            ends: ListOf::from_vec(ends),
        }
    }

    /// The last LSN.
    pub(crate) fn end(&self) -> u64
        ensures { result ≡ length self.now.records }
    {
        self.records.len() as u64
    }

    /// Moves a block to the end, and answers the new last LSN. After an error the log is as it was.
    pub(crate) fn add(&mut self, block: Block) -> Result<u64, DispatchFault>
        requires room { length self.old.records ≤ 2 ^ 63 }
        requires more { block.first ≡ length self.old.records + 1 → length self.old.records + length block.records ≤ 2 ^ 63 }
        ensures next { IfOk result (λ _. block.first ≡ length self.old.records + 1) }
        ensures ok { IfOk result (λ _. self.new ≡ with_block self.old block.records) }
        ensures end { IfOk result (λ end. end ≡ length self.new.records) }
        ensures err { OnErr result (self.new ≡ self.old) }
        ensures fault { IfErr result (IsDispatchFault block.first (length self.old.records)) }
    {
        let end = self.end();
        if block.first != end + 1 {
            return Err(DispatchFault::NotNext {
                start: block.first,
                end,
            });
        }
        let Block { mut records, .. } = block;
        if self.append(&mut records).is_err() {
            return Err(DispatchFault::NoMemory);
        }
        Ok(self.end())
    }

    /// The block after an LSN at which a block ends.
    pub(crate) fn block_after(&self, alloc: Global, lsn: u64) -> Result<Fetched, NoMemory>
        requires proper { (pages : ℕ) × IsProper pages self.now }
        requires end { IsBlockEnd self.now lsn }
        ensures { IfOk result (IsFetched self.now lsn) }
    {
        let place = place_of(self.ends.as_slice(), lsn);
        let Some(end) = self.ends.get(place + 1) else {
            return Ok(Fetched::UpToDate);
        };
        let last = *end;
        let records = copy_records(alloc, self.records.as_slice(), lsn, last)?;
        let term = term_of(self.starts.as_slice(), last);
        Ok(Fetched::Next(Block {
            first: lsn + 1,
            term,
            records,
        }))
    }

    /// Moves records to the end as a block. Where memory is refused, the log is as it was.
    fn append(&mut self, block: &mut RecordList) -> Result<(), NoMemory>
        requires { length self.old.records + length block.old < 2 ^ 64 }
        ensures ok { OnOk result (self.new ≡ with_block self.old block.old) }
        ensures err { OnErr result (self.new ≡ self.old) }
    {
        grow(&mut self.records, &mut self.ends, &mut self.starts, block)?;
        Ok(())
    }
}

/// The place of an end among rising ends.
fn place_of(ends: &[u64], lsn: u64) -> usize
    requires rises { RisesFrom 0 ends.now }
    requires there { contains lsn ends.now ≡ true }
    ensures inside { result < length ends.now }
    ensures is { slice_index ends.now result ≡ lsn }
{
    match ends.binary_search(&lsn) {
        Ok(place) => place,
        Err(_) => unreachable!(),
    }
}

/// The records after one LSN and up to another.
fn copy_records(
    alloc: Global,
    records: &[Record],
    low: u64,
    high: u64,
) -> Result<RecordList, NoMemory>
    requires order { low ≤ high }
    requires within { high ≤ length records.now }
    ensures { IfOk result (λ copy. copy ≡ after_to low high records.now) }
{
    let copy = records[low as usize..high as usize].to_vec(alloc)?;
    Ok(ListOf::from_vec(copy))
}

/// The term of the last of these starts up to an LSN, or 0.
fn term_of(starts: &[TermStart], last: u64) -> u64
    ensures { result ≡ term_by last starts.now }
{
    for i in (0..starts.len()).rev() {
        let start = starts[i];
        if start.lsn <= last {
            return start.term;
        }
    }
    0
}

/// Moves a block to the end of the records, with its end and its starts, or leaves all as it was.
fn grow(
    records: &mut RecordList,
    ends: &mut Vec<u64>,
    starts: &mut Vec<TermStart>,
    block: &mut RecordList,
) -> Result<(), NoMemory>
    requires { length records.old + length block.old < 2 ^ 64 }
    ensures records { OnOk result (records.new ≡ records.old ++ block.old) }
    ensures ends { OnOk result (ends.new.items ≡ ends.old.items ++ (length records.old + length block.old) ∷ []) }
    ensures starts { OnOk result (starts.new.items ≡ starts.old.items ++ starts_after (length records.old) block.old) }
    ensures records_kept { OnErr result (records.new ≡ records.old) }
    ensures ends_kept { OnErr result (ends.new.items ≡ ends.old.items) }
    ensures starts_kept { OnErr result (starts.new.items ≡ starts.old.items) }
{
    let end = records.len() as u64 + block.len() as u64;
    if ends.push(end).is_err() {
        return Err(NoMemory);
    }
    let grown = grow_records(records, starts, block);
    if grown.is_err() {
        ends.pop();
    }
    grown
}

/// Moves records to the end, with the starts in them, or leaves all as it was.
fn grow_records(
    records: &mut RecordList,
    starts: &mut Vec<TermStart>,
    block: &mut RecordList,
) -> Result<(), NoMemory>
    requires { length records.old + length block.old < 2 ^ 64 }
    ensures records { OnOk result (records.new ≡ records.old ++ block.old) }
    ensures starts { OnOk result (starts.new.items ≡ starts.old.items ++ starts_after (length records.old) block.old) }
    ensures records_kept { OnErr result (records.new ≡ records.old) }
    ensures starts_kept { OnErr result (starts.new.items ≡ starts.old.items) }
{
    let count = starts.len();
    push_starts(starts, records.len() as u64, block.as_slice())?;
    if records.append(block).is_err() {
        starts.truncate(count);
        return Err(NoMemory);
    }
    Ok(())
}

/// Adds the starts in records that come after an LSN, or none.
fn push_starts(starts: &mut Vec<TermStart>, before: u64, records: &[Record]) -> Result<(), NoMemory>
    requires { before + length records.now < 2 ^ 64 }
    ensures ok { OnOk result (starts.new.items ≡ starts.old.items ++ starts_after before records.now) }
    ensures err { OnErr result (starts.new.items ≡ starts.old.items) }
{
    let count = starts.len();
    let mut lsn = before;
    for record in records {
        lsn += 1;
        if push_start(starts, lsn, record).is_err() {
            starts.truncate(count);
            return Err(NoMemory);
        }
    }
    Ok(())
}

/// Adds the start that a record at an LSN is, if it is one.
fn push_start(starts: &mut Vec<TermStart>, lsn: u64, entry: &Record) -> Result<(), NoMemory>
    ensures ok { OnOk result (starts.new.items ≡ starts.old.items ++ start_by lsn entry.now) }
    ensures err { OnErr result (starts.new.items ≡ starts.old.items) }
{
    if let Record::Term { term } = entry
        && starts.push(TermStart { term: *term, lsn }).is_err()
    {
        return Err(NoMemory);
    }
    Ok(())
}
