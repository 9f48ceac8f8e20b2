//! The bytes of records and versions.
ghost use Rattle.std.specs.Prelude.{◌≡◌, ◌+◌, ◌*◌, ◌<◌, ◌≤◌, ℕ, IfOk, length};
ghost use Rattle.ag_model.specs.Sizes.{change_size, free_bytes, record_size, records_size};
ghost use Rattle.ag_rules.specs.PutEvent.{record_of};

use ag_model::record::{PageList, Record};
use ag_model::value::{Change, NoMemory, PageValue};

/// The bytes that a page has for its versions.
const PAGE_ROOM: u32 = 8144;

/// How many bytes a change takes on its page.
pub(crate) fn change_size(change: &Change) -> u32
    ensures { result ≡ change_size change.now }
{
    match change {
        Change::Put(value) => 30 + u32::from(value.len),
        Change::Del => 30,
    }
}

/// How many bytes a page has free.
pub(crate) fn free_bytes(v: &PageValue) -> u32
    ensures { result ≡ free_bytes v.now }
{
    let mut free = PAGE_ROOM;
    for version in v.versions.as_slice() {
        free = free.saturating_sub(change_size(&version.change));
    }
    free
}

/// How many bytes the record of a change takes.
pub(crate) fn change_record_size(change: &Change) -> u32
    ensures size { (txn key : ℕ) → result ≡ record_size (record_of txn key change.now) }
    ensures bound { result < 271 }
{
    match change {
        Change::Put(value) => 15 + u32::from(value.len),
        Change::Del => 13,
    }
}

/// How many bytes a record takes that lists pages.
fn listed_size(pages: &PageList) -> u64
    ensures { result ≡ 11 + 2 * length pages.now }
{
    11 + 2 * pages.as_slice().len() as u64
}

/// How many bytes a record takes.
fn record_size(entry: &Record) -> u64
    ensures { result ≡ record_size entry.now }
{
    match entry {
        Record::Put { value, .. } => 15 + u64::from(value.len),
        Record::Del { .. } => 13,
        Record::Commit { pages, .. } | Record::Abort { pages, .. } => listed_size(pages),
        Record::Trim { .. } => 11,
        Record::Term { .. } => 9,
    }
}

/// How many bytes some records take. More than 2^32 is want of memory.
pub(crate) fn records_size(records: &[Record]) -> Result<u32, NoMemory>
    ensures { IfOk result (λ size. size ≡ records_size records.now) }
{
    let mut size = 0u32;
    for entry in records {
        let more = u32::try_from(record_size(entry)).map_err(|_| NoMemory)?;
        size = size.checked_add(more).ok_or(NoMemory)?;
    }
    Ok(size)
}

/// How many bytes the records of a block take.
pub(crate) fn small_size(records: &[Record]) -> u32
    requires { records_size records.now ≤ 15488 }
    ensures { result ≡ records_size records.now }
{
    let mut size = 0u64;
    for entry in records {
        size += record_size(entry);
    }
    size as u32
}
