//! Pages with more records.
ghost use Rattle.std.specs.Prelude.{◌≡◌, ◌≤◌, ◌<◌, ◌+◌, ◌^◌, IfOk, OnOk, length};
ghost use Rattle.ag_model.specs.Rows.{contains, touches};
ghost use Rattle.ag_version.specs.Edits.{after_change};
ghost use Rattle.ag_stripe.specs.Redo.{after_record};
ghost use Rattle.ag_txn.specs.View.{page_after_all};

use ag_model::page::page_of;
use ag_model::record::{PageList, Record};
use ag_model::value::{Change, NoMemory, PageValue, Version, VersionList};
use ag_version::{abort, stamp, trim};
use std::alloc::Global;

/// A copy of a page value.
fn copied(alloc: Global, v: &PageValue) -> Result<PageValue, NoMemory>
    ensures { IfOk result (λ copy. copy ≡ v.now) }
{
    let versions = Vec::from_slice(alloc, v.versions.as_slice())?;
    Ok(PageValue {
        page: v.page,
        lsn: v.lsn,
        horizon: v.horizon,
        versions: VersionList::from_vec(versions),
    })
}

/// Whether a page is in a list.
fn lists(pages: &PageList, page: u16) -> bool
    ensures { result ≡ contains page pages.now }
{
    pages.as_slice().iter().any(|listed| page == *listed)
}

/// Whether a record touches a page, where there are so many data pages.
fn touches(pages: u16, page: u16, entry: &Record) -> bool
    requires some { 0 < pages }
    requires few { pages ≤ 2048 }
    ensures { result ≡ touches pages page entry.now }
{
    match entry {
        Record::Put { key, .. } | Record::Del { key, .. } => page == page_of(pages, *key),
        Record::Commit { pages, .. } | Record::Abort { pages, .. } => lists(pages, page),
        Record::Trim { page: trimmed, .. } => page == *trimmed,
        Record::Term { .. } => false,
    }
}

/// Puts a version on a page, which has room for it.
fn add_version(
    v: &mut PageValue,
    lsn: u64,
    txn: u64,
    key: u32,
    change: Change,
) -> Result<(), NoMemory>
    ensures { OnOk result (v.new ≡ after_change lsn txn key change v.old) }
{
    v.versions.push(Version {
        lsn,
        txn,
        commit: 0,
        key,
        change,
    })?;
    v.lsn = lsn;
    Ok(())
}

/// Edits a page by the record at this LSN, which touches it.
fn edit(v: &mut PageValue, lsn: u64, entry: &Record) -> Result<(), NoMemory>
    ensures { OnOk result (v.new ≡ after_record lsn entry.now v.old) }
{
    match entry {
        Record::Put { txn, key, value } => add_version(v, lsn, *txn, *key, Change::Put(*value))?,
        Record::Del { txn, key } => add_version(v, lsn, *txn, *key, Change::Del)?,
        Record::Commit { txn, .. } => stamp(v, lsn, *txn),
        Record::Abort { txn, .. } => abort(v, lsn, *txn),
        Record::Trim { horizon, .. } => trim(v, lsn, *horizon),
        Record::Term { .. } => {}
    }
    Ok(())
}

/// A copy of a page with more records, of which the first has this LSN.
pub(crate) fn edited(
    alloc: Global,
    pages: u16,
    page: u16,
    v: &PageValue,
    first: u64,
    records: &[Record],
) -> Result<PageValue, NoMemory>
    requires some { 0 < pages }
    requires few { pages ≤ 2048 }
    requires lsns { first + length records.now < 2 ^ 64 }
    ensures { IfOk result (λ w. w ≡ page_after_all pages first records.now page v.now) }
{
    let mut copy = copied(alloc, v)?;
    let mut lsn = first;
    for entry in records {
        if touches(pages, page, entry) {
            edit(&mut copy, lsn, entry)?;
        }
        lsn += 1;
    }
    Ok(copy)
}
