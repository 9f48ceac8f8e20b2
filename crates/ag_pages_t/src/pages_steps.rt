//! Each call of the pages of a replica, behind a function without clauses: it tests what the call requires, and answers what it gave,
//! or None where the call may not be made.
use crate::disk_steps::OneDisk;
use crate::records::{Blocks, between};
use crate::showing;
use crate::words::{at, byte, long, short};
use ag_model::record::Record;
use ag_model::value::{PageValue, Row};
use ag_outside::disk::Disk;
use ag_pages::{FlushFault, Pages};
use ag_stripe::StripeFault;
use std::alloc::Global;
use std::io;

/// The pages of a replica that has redone its log to an LSN.
pub fn fresh(alloc: Global, n: &[u64]) -> Option<Pages> {
    let count = short(at(n, 0));
    if !(16..=2048).contains(&count) {
        return None;
    }
    Pages::new(alloc, count, at(n, 1)).ok()
}

/// Redoes records on a stripe.
fn redo(
    pages: &mut Pages,
    disk: &mut OneDisk,
    stripe: u8,
    records: &[Record],
) -> Option<Result<(), StripeFault>> {
    if disk.sectors() >= 33088
        && stripe < 16
        && pages.applied(stripe) < 1000
        && records.len() < 1000
    {
        Some(pages.redo(disk, stripe, records))
    } else {
        None
    }
}

/// Redoes records on each of the 16 stripes, and answers on how many that went well.
fn redo_all(pages: &mut Pages, disk: &mut OneDisk, records: &[Record]) -> u8 {
    let mut well = 0u8;
    for stripe in 0..16 {
        if let Some(Ok(())) = redo(pages, disk, stripe, records) {
            well = well.saturating_add(1);
        }
    }
    well
}

/// The row of a key at a snapshot.
fn row_at(
    pages: &mut Pages,
    disk: &mut OneDisk,
    key: u32,
    snapshot: u64,
) -> Option<Result<Row, StripeFault>> {
    if disk.sectors() >= 33088 {
        Some(pages.row_at(disk, key, snapshot))
    } else {
        None
    }
}

/// The value of a page.
fn value_of(
    pages: &mut Pages,
    disk: &mut OneDisk,
    page: u16,
) -> Option<Result<PageValue, StripeFault>> {
    if disk.sectors() >= 33088 && 16 <= page && page < 16 + pages.count() {
        Some(pages.value_of(disk, page))
    } else {
        None
    }
}

/// Writes the dirty pages.
fn flush(pages: &mut Pages, disk: &mut OneDisk) -> Option<Result<(), FlushFault>> {
    if disk.sectors() >= 33088 {
        Some(pages.flush(disk))
    } else {
        None
    }
}

/// The LSN to which a stripe was redone.
fn applied(pages: &Pages, stripe: u8) -> Option<u64> {
    if stripe < 16 {
        Some(pages.applied(stripe))
    } else {
        None
    }
}

/// Whether a page is dirty.
fn is_dirty(pages: &Pages, page: u16) -> bool {
    16 <= page && page < 16 + pages.count() && pages.is_dirty(page)
}

/// Prints the dirty pages.
fn dirty(rt: &HostRuntime, pages: &Pages) -> io::Result<()> {
    for page in 16..2064 {
        if is_dirty(pages, page) {
            print!(rt; " {page}")?;
        }
    }
    Ok(())
}

/// Plays a step.
pub fn play(
    rt: &HostRuntime,
    disk: &mut OneDisk,
    pages: &mut Pages,
    blocks: &Blocks,
    verb: &str,
    n: &[u64],
) -> io::Result<()> {
    match verb {
        "redo" => {
            let records = between(rt.alloc(), blocks, at(n, 1), at(n, 2))?;
            print!(rt; " {:?}", redo(pages, disk, byte(at(n, 0)), &records))
        }
        "redo_all" => {
            let records = between(rt.alloc(), blocks, at(n, 0), at(n, 1))?;
            print!(rt; " {}", redo_all(pages, disk, &records))
        }
        "row" => showing::row(rt, &row_at(pages, disk, long(at(n, 0)), at(n, 1))),
        "value" => showing::page_value(rt, &value_of(pages, disk, short(at(n, 0)))),
        "flush" => print!(rt; " {:?}", flush(pages, disk)),
        "applied" => print!(rt; " {:?}", applied(pages, byte(at(n, 0)))),
        "least_applied" => print!(rt; " {}", pages.least_applied()),
        "count" => print!(rt; " {}", pages.count()),
        "dirty" => dirty(rt, pages),
        _ => Ok(()),
    }
}
