//! The edits of a page, each of them in its image and as a value.
use crate::page::{Page, is_same};
use crate::reading::{is_page, is_spelled};
use ag_inplace::{PageFull, abort_in, put_in, row_in, stamp_in, trim_in};
use ag_model::value::{Change, Row, TooOld};
use ag_page::Image;
use ag_version::{PutFault, abort, put, row_at, stamp, trim};
use std::alloc::Global;

/// What makes a version: its LSN, its transaction and its key.
#[derive(Clone, Copy)]
pub struct Made {
    pub lsn: u64,
    pub txn: u64,
    pub key: u32,
}

/// The answer in place, where the image is a page.
fn put_there(
    alloc: Global,
    i: &mut Image,
    made: Made,
    change: &Change,
) -> Option<Result<(), PageFull>> {
    if is_page(alloc, i) && is_spelled(change) {
        Some(put_in(i, made.lsn, made.txn, made.key, change))
    } else {
        None
    }
}

/// Whether both answers say the same.
fn agree(by_value: &Result<(), PutFault>, there: &Option<Result<(), PageFull>>) -> bool {
    match (by_value, there) {
        (Ok(()), Some(Ok(()))) => true,
        (Err(PutFault::PageFull { need, free }), Some(Err(full))) => {
            *need == full.need && *free == full.free
        }
        _ => false,
    }
}

/// Puts a version on. The answer in place, and whether all is the same both ways.
pub fn put_both(
    alloc: Global,
    page: &mut Page,
    made: Made,
    change: &Change,
) -> (Option<Result<(), PageFull>>, bool) {
    let there = put_there(alloc, &mut page.image, made, change);
    let by_value = put(&mut page.value, made.lsn, made.txn, made.key, change);
    let same = agree(&by_value, &there) && is_same(page);
    (there, same)
}

/// Commits a transaction. Whether all is the same both ways.
pub fn stamp_both(alloc: Global, page: &mut Page, lsn: u64, txn: u64) -> bool {
    if is_page(alloc, &page.image) {
        stamp_in(&mut page.image, lsn, txn);
    }
    stamp(&mut page.value, lsn, txn);
    is_same(page)
}

/// Aborts a transaction. Whether all is the same both ways.
pub fn abort_both(alloc: Global, page: &mut Page, lsn: u64, txn: u64) -> bool {
    if is_page(alloc, &page.image) {
        abort_in(&mut page.image, lsn, txn);
    }
    abort(&mut page.value, lsn, txn);
    is_same(page)
}

/// Trims to a horizon. Whether all is the same both ways.
pub fn trim_both(alloc: Global, page: &mut Page, lsn: u64, horizon: u64) -> bool {
    if is_page(alloc, &page.image) {
        trim_in(&mut page.image, lsn, horizon);
    }
    trim(&mut page.value, lsn, horizon);
    is_same(page)
}

/// The row of a key at a snapshot, read in place, and whether it is the same both ways.
pub fn row_both(
    alloc: Global,
    page: &Page,
    key: u32,
    snapshot: u64,
    own: Option<u64>,
) -> (Option<Result<Row, TooOld>>, bool) {
    if !is_page(alloc, &page.image) {
        return (None, false);
    }
    let there = row_in(&page.image, key, snapshot, own);
    let same = there == row_at(&page.value, key, snapshot, own);
    (Some(there), same)
}
