//! Redo of records on the frames of pages.
ghost use Rattle.std.specs.Prelude.{◌≡◌, ◌+◌, ◌^◌, ◌<◌, ◌≤◌, ◌==◌, ◌&&◌, length, OnOk, IfOk, IfErr};
ghost use Rattle.ag_model.specs.Rows.{contains, stripe_of, touches};
ghost use Rattle.ag_version.specs.declared.fault.PutFault.TheVariants.{NoMemory};
ghost use Rattle.ag_stripe.specs.Redo.{after_record, redone, HasRoom};
ghost use Rattle.ag_pool.specs.Passes.{has_frame, redone_where, IsRefused, AreRefused};
ghost use Rattle.ag_pool.specs.Redo.{redone_frame, redone_page, each_with_page, CanTake};

use crate::fault::PoolFault;
use crate::frame::Frame;
use ag_model::page::page_of;
use ag_model::record::Record;
use ag_model::value::{Change, PageValue};
use ag_version::{PutFault, abort, put, stamp, trim};

/// Edits a page by the record at this LSN, which touches it.
fn edit(v: &mut PageValue, lsn: u64, entry: &Record) -> Result<(), PutFault>
    ensures ok { OnOk result (v.new ≡ after_record lsn entry.now v.old) }
    ensures room { HasRoom entry.now v.old → IfErr result (λ e. e ≡ NoMemory) }
{
    match entry {
        Record::Put { txn, key, value } => put(v, lsn, *txn, *key, &Change::Put(*value))?,
        Record::Del { txn, key } => put(v, lsn, *txn, *key, &Change::Del)?,
        Record::Commit { txn, .. } => stamp(v, lsn, *txn),
        Record::Abort { txn, .. } => abort(v, lsn, *txn),
        Record::Trim { horizon, .. } => trim(v, lsn, *horizon),
        Record::Term { .. } => {}
    }
    Ok(())
}

/// Redoes the record at this LSN on a page that it touches, unless the page has it already.
fn redo_value(v: &mut PageValue, lsn: u64, entry: &Record) -> Result<(), PutFault>
    ensures ok { OnOk result (v.new ≡ redone lsn entry.now v.old) }
    ensures room { (v.old.lsn < lsn → HasRoom entry.now v.old) → IfErr result (λ e. e ≡ NoMemory) }
{
    if v.lsn < lsn {
        edit(v, lsn, entry)
    } else {
        Ok(())
    }
}

/// Redoes the record at this LSN on the frame of a page that it touches. A page that was not read in stays as it is.
pub(crate) fn redo_frame(frame: &mut Frame, lsn: u64, entry: &Record) -> Result<(), PutFault>
    ensures ok { OnOk result (frame.new ≡ redone_frame lsn entry.now frame.old) }
    ensures room { CanTake lsn entry.now frame.old → IfErr result (λ e. e ≡ NoMemory) }
{
    if let Some(v) = &mut frame.value {
        redo_value(v, lsn, entry)?;
        frame.dirty = true;
    }
    Ok(())
}

/// Whether the frames have one of this page, and the page is of the stripe.
fn owns(frames: &[Frame], x: u8, page: u16) -> bool
    ensures { result ≡ (has_frame frames.now page && (stripe_of page == x)) }
{
    page >= 16 && usize::from(page - 16) < frames.len() && page % 16 == u16::from(x)
}

/// Redoes the record at this LSN on the frame of one page, where the page is of the stripe.
fn redo_on(
    frames: &mut Vec<Frame>,
    x: u8,
    page: u16,
    lsn: u64,
    entry: &Record,
) -> Result<(), PoolFault>
    ensures count { length frames.new.items ≡ length frames.old.items }
    ensures redone { OnOk result (frames.new.items ≡ each_with_page (redone_where x lsn entry.now (λ q. q == page)) frames.old.items) }
    ensures refused { IfErr result (IsRefused x lsn entry.now (λ q. q == page) frames.old.items) }
{
    if !owns(frames.as_slice(), x, page) {
        return Ok(());
    }
    match redo_frame(&mut frames[usize::from(page - 16)], lsn, entry) {
        Ok(()) => Ok(()),
        Err(PutFault::PageFull { .. }) => Err(PoolFault::Full { page }),
        Err(PutFault::NoMemory) => Err(PoolFault::NoMemory),
    }
}

/// Redoes the record at this LSN on the frames of those of these pages that are of the stripe.
fn redo_listed(
    frames: &mut Vec<Frame>,
    x: u8,
    listed: &[u16],
    lsn: u64,
    entry: &Record,
) -> Result<(), PoolFault>
    ensures count { length frames.new.items ≡ length frames.old.items }
    ensures redone { OnOk result (frames.new.items ≡ each_with_page (redone_where x lsn entry.now (λ q. contains q listed.now)) frames.old.items) }
    ensures refused { IfErr result (IsRefused x lsn entry.now (λ q. contains q listed.now) frames.old.items) }
{
    for page in listed {
        redo_on(frames, x, *page, lsn, entry)?;
    }
    Ok(())
}

/// Redoes the record at this LSN on the frames of the stripe's pages that it touches.
fn redo_entry(
    frames: &mut Vec<Frame>,
    x: u8,
    pages: u16,
    lsn: u64,
    entry: &Record,
) -> Result<(), PoolFault>
    requires some { 0 < pages }
    requires few { pages ≤ 2048 }
    ensures count { length frames.new.items ≡ length frames.old.items }
    ensures redone { OnOk result (frames.new.items ≡ each_with_page (redone_where x lsn entry.now (λ q. touches pages q entry.now)) frames.old.items) }
    ensures refused { IfErr result (IsRefused x lsn entry.now (λ q. touches pages q entry.now) frames.old.items) }
{
    match entry {
        Record::Put { key, .. } => redo_on(frames, x, page_of(pages, *key), lsn, entry),
        Record::Del { key, .. } => redo_on(frames, x, page_of(pages, *key), lsn, entry),
        Record::Commit { pages, .. } => redo_listed(frames, x, pages.as_slice(), lsn, entry),
        Record::Abort { pages, .. } => redo_listed(frames, x, pages.as_slice(), lsn, entry),
        Record::Trim { page, .. } => redo_on(frames, x, *page, lsn, entry),
        Record::Term { .. } => Ok(()),
    }
}

/// Redoes the records that come next after an LSN on the frames of the stripe's pages, and answers the last LSN.
pub(crate) fn redo_all(
    frames: &mut Vec<Frame>,
    x: u8,
    pages: u16,
    applied: u64,
    records: &[Record],
) -> Result<u64, PoolFault>
    requires some { 0 < pages }
    requires few { pages ≤ 2048 }
    requires small { applied + length records.now < 2 ^ 64 }
    ensures end { IfOk result (λ end. end ≡ applied + length records.now) }
    ensures count { length frames.new.items ≡ length frames.old.items }
    ensures redone { OnOk result (frames.new.items ≡ each_with_page (redone_page x pages applied records.now) frames.old.items) }
    ensures refused { IfErr result (AreRefused x pages applied records.now frames.old.items) }
{
    let mut lsn = applied;
    for entry in records {
        lsn += 1;
        redo_entry(frames, x, pages, lsn, entry)?;
    }
    Ok(lsn)
}
