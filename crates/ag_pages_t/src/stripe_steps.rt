//! Each call of a stripe, behind a function without clauses: it tests what the call requires, and answers what it gave, or None
//! where the call may not be made.
use crate::disk_steps::OneDisk;
use crate::records::{Blocks, between};
use crate::showing;
use crate::words::{at, long, short};
use ag_model::message::Block;
use ag_model::page::page_of;
use ag_model::record::{Record, RecordList};
use ag_model::value::{PageValue, Row};
use ag_pagestore::{PageStore, PageWrite};
use ag_stripe::{Away, Stripe, StripeFault};
use std::alloc::{AllocError, Global};
use std::io;

/// A stripe over the images on the disk.
type OnDisk<'a> = Stripe<PageStore<'a, OneDisk>>;

/// Stripe 5 of so many data pages, which has redone the first record of the log.
pub fn fresh(alloc: Global, pages: u64) -> Option<Stripe<Away>> {
    let pages = short(pages);
    if !(16..=2048).contains(&pages) {
        return None;
    }
    Stripe::new(alloc, 5, pages, 1, 1).ok()
}

/// Applies records as the next block.
fn apply(stripe: &mut OnDisk, records: Vec<Record>) -> Option<Result<u64, StripeFault>> {
    let _pages = stripe.pages();
    let applied = stripe.applied();
    if applied >= 1000 || records.len() >= 1000 {
        return None;
    }
    let block = Block {
        first: applied + 1,
        term: 1,
        records: RecordList::from_vec(records),
    };
    Some(stripe.apply(&block))
}

/// Redoes records.
fn redo(stripe: &mut OnDisk, records: &[Record]) -> Option<Result<(), StripeFault>> {
    let _pages = stripe.pages();
    if stripe.applied() < 1000 && records.len() < 1000 {
        Some(stripe.redo(records))
    } else {
        None
    }
}

/// The value of a page.
fn value_of(stripe: &mut OnDisk, page: u16) -> Option<Result<PageValue, StripeFault>> {
    let _pages = stripe.pages();
    if stripe.owns(page) {
        Some(stripe.value_of(page))
    } else {
        None
    }
}

/// The row of a key at a snapshot.
fn row_at(stripe: &mut OnDisk, key: u32, snapshot: u64) -> Option<Result<Row, StripeFault>> {
    let pages = stripe.pages();
    if stripe.owns(page_of(pages, key)) {
        Some(stripe.row_at(key, snapshot))
    } else {
        None
    }
}

/// Takes the image of a page, which then waits to be written.
fn image_of(
    stripe: &mut OnDisk,
    page: u16,
    images: &mut Vec<PageWrite>,
) -> Result<Option<Result<(), StripeFault>>, AllocError> {
    let _pages = stripe.pages();
    if !stripe.owns(page) {
        return Ok(None);
    }
    let mut image = [[9; 512]; 16];
    let answer = stripe.image_of(page, &mut image);
    if answer.is_ok() {
        images.push(PageWrite { page, image })?;
    }
    Ok(Some(answer))
}

/// Whether a page is dirty.
fn is_dirty(stripe: &OnDisk, page: u16) -> Option<bool> {
    if stripe.owns(page) {
        Some(stripe.is_dirty(page))
    } else {
        None
    }
}

/// Says that the image of a page was written, and answers whether the page is one of the stripe's.
fn cleaned(stripe: &mut OnDisk, page: u16) -> bool {
    if stripe.owns(page) {
        stripe.cleaned(page);
        true
    } else {
        false
    }
}

/// Plays a step on a stripe that was lent the disk.
fn on_disk(
    rt: &HostRuntime,
    stripe: &mut OnDisk,
    blocks: &Blocks,
    images: &mut Vec<PageWrite>,
    verb: &str,
    n: &[u64],
) -> io::Result<()> {
    let page = short(at(n, 0));
    match verb {
        "apply" => {
            let records = between(rt.alloc(), blocks, at(n, 0), at(n, 0).saturating_add(1))?;
            print!(rt; " {:?}", apply(stripe, records))
        }
        "redo" => {
            let records = between(rt.alloc(), blocks, at(n, 0), at(n, 1))?;
            print!(rt; " {:?}", redo(stripe, &records))
        }
        "value" => showing::page_value(rt, &value_of(stripe, page)),
        "row" => showing::row(rt, &row_at(stripe, long(at(n, 0)), at(n, 1))),
        "image" => print!(rt; " {:?}", image_of(stripe, page, images)?),
        "applied" => print!(rt; " {}", stripe.applied()),
        "is_dirty" => print!(rt; " {:?}", is_dirty(stripe, page)),
        "dirty" => showing::pages(rt, &stripe.dirty()),
        "cleaned" => print!(rt; " {}", cleaned(stripe, page)),
        _ => Ok(()),
    }
}

/// Lends the stripe the disk, plays a step, and takes it back.
pub fn play(
    rt: &HostRuntime,
    disk: &mut OneDisk,
    stripe: Stripe<Away>,
    blocks: &Blocks,
    images: &mut Vec<PageWrite>,
    verb: &str,
    n: &[u64],
) -> (Stripe<Away>, io::Result<()>) {
    let mut lent = stripe.lend(PageStore::new(disk));
    let answer = on_disk(rt, &mut lent, blocks, images, verb, n);
    let (stripe, _store) = lent.take_back();
    (stripe, answer)
}
