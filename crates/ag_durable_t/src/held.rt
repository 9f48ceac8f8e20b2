//! A replica's data, behind functions without clauses: each tests what its call requires, and tells where that isn't so.
ghost use Rattle.std.specs.Prelude.{◌≡◌, ◌≢◌, true};
ghost use Rattle.ag_record.specs.Spelling.{ArePayload};

use crate::blocks::{puts, start};
use ag_durable::{Came, Durable, DurableFault};
use ag_logstore::{block_sectors_of, records_size};
use ag_model::answer::Cell;
use ag_model::event::Suffix;
use ag_model::message::Block;
use ag_model::page_set::PageSet;
use ag_model::record::RecordList;
use ag_outside::mem_disk::MemDisk;
use ag_outside::scripted::Scripted;
use ag_page::Got;
use ag_pagestore::PageWrite;
use ag_writes::{MasterWords, Reach};
use std::alloc::Global;

/// What a script holds.
#[derive(Drop)]
pub enum Held {
    Nothing,
    Data(Durable<MemDisk>),
}

/// What a call gave, where it was made.
pub type Gave = Option<Result<(), DurableFault>>;

/// What is seen of the image of a page.
#[derive(Debug, Drop)]
pub struct Seen {
    pub got: Got,
    pub first: u8,
    pub cells: [Cell; 16],
}

/// Whether more can be written.
pub fn is_underway(kept: &Durable<MemDisk>) -> bool
    ensures { result ≡ true → kept.now.progress.came ≡ Came.Underway }
{
    matches!(kept.progress().came, Came::Underway)
}

/// Whether no fault has come.
fn is_known(kept: &Durable<MemDisk>) -> bool
    ensures { result ≡ true → kept.now.progress.came ≢ Came.Unknown }
{
    !matches!(kept.progress().came, Came::Unknown)
}

/// A disk of zeros that is formatted for so many pages and the replica of this number.
pub fn formatted(alloc: Global, pages: u16, replica: u8) -> Held {
    let disk = Scripted::new(alloc, MemDisk::new(alloc, Vec::new(alloc), false));
    if pages > 2048 {
        return Held::Nothing;
    }
    match Durable::format(alloc, disk, pages, replica) {
        Ok(kept) => Held::Data(kept),
        Err(_) => Held::Nothing,
    }
}

/// What the disk keeps, read again.
pub fn reloaded(alloc: Global, kept: Durable<MemDisk>) -> Held {
    if !is_known(&kept) {
        return Held::Nothing;
    }
    match Durable::load(alloc, kept.into_disk()) {
        Ok(kept) => Held::Data(kept),
        Err(_) => Held::Nothing,
    }
}

/// Begins an event.
pub fn begin(alloc: Global, kept: &mut Durable<MemDisk>, suffix: &Suffix) -> bool {
    if !is_underway(kept) {
        return false;
    }
    kept.begin(alloc, suffix);
    true
}

/// Appends a block of these records in a term.
fn append(kept: &mut Durable<MemDisk>, term: u64, records: RecordList) -> Gave
    requires payload { ArePayload records }
{
    if !is_underway(kept) || !kept.can_append() {
        return None;
    }
    let end = kept.log().end();
    let Ok(size) = records_size(records.as_slice()) else {
        return None;
    };
    if end == u64::MAX || block_sectors_of(size) > kept.log().free_sectors() {
        return None;
    }
    Some(kept.append(&Block {
        term,
        first: end + 1,
        records,
    }))
}

/// Appends the block that starts a term.
pub fn append_start(alloc: Global, kept: &mut Durable<MemDisk>, term: u64) -> Gave {
    match start(alloc, term) {
        Ok(records) => append(kept, term, records),
        Err(_) => None,
    }
}

/// Appends a block of so many Puts, from 1 to 196.
pub fn append_puts(alloc: Global, kept: &mut Durable<MemDisk>, count: u64) -> Gave {
    if count == 0 || count > 196 {
        return None;
    }
    match puts(alloc, count) {
        Ok(records) => append(kept, 1, records),
        Err(_) => None,
    }
}

/// Writes a master with this incarnation, term and redo start, which keeps the log whole.
pub fn save(kept: &mut Durable<MemDisk>, incarnation: u64, term: u64, redo_start: u64) -> Gave {
    let words = MasterWords {
        term,
        state: 0,
        incarnation,
        redo_start,
        undo: 0,
        foreign: PageSet::empty(),
    };
    let end = kept.log().end();
    if !is_underway(kept) || incarnation != kept.master().incarnation {
        return None;
    }
    Some(kept.save(&words, end))
}

/// Writes a master with a higher incarnation, which cuts the log to nothing.
pub fn cut(kept: &mut Durable<MemDisk>, incarnation: u64, term: u64) -> Gave {
    let words = MasterWords {
        term,
        state: 3,
        incarnation,
        redo_start: 0,
        undo: 9,
        foreign: PageSet::empty(),
    };
    if !is_underway(kept) || incarnation <= kept.master().incarnation {
        return None;
    }
    Some(kept.save(&words, 0))
}

/// Notes a page.
pub fn note(kept: &mut Durable<MemDisk>, page: u16, kind: u8) -> Gave {
    if !is_underway(kept) || page == 0 || !kept.suspects().can_note(page) {
        return None;
    }
    Some(kept.note(page, kind))
}

/// Marks a page's row as repaired.
pub fn mark(kept: &mut Durable<MemDisk>, page: u16) -> Gave {
    if !is_underway(kept) || !kept.suspects().has(page) {
        return None;
    }
    Some(kept.mark(page))
}

/// Syncs.
pub fn sync(kept: &mut Durable<MemDisk>) -> Gave {
    if !is_underway(kept) {
        return None;
    }
    Some(kept.sync())
}

/// An image of this byte for a page.
fn image(page: u16, byte: u8) -> PageWrite
    ensures { result.page ≡ page }
{
    PageWrite {
        page,
        image: [[byte; 512]; 16],
    }
}

/// Writes two pages, the first before the second.
pub fn write_two(kept: &mut Durable<MemDisk>, first: u16, second: u16, byte: u8) -> Gave {
    let pages = kept.master().pages;
    if !is_underway(kept) || first < 16 || first >= second || second >= 2064 {
        return None;
    }
    if u32::from(second) >= 16 + u32::from(pages) {
        return None;
    }
    Some(kept.write_pages(&[image(first, byte), image(second, byte)]))
}

/// What is found of the image of a page, its first byte where it is sound, and its cells.
pub fn look(kept: &mut Durable<MemDisk>, page: u16) -> Option<Result<Seen, DurableFault>> {
    if !is_underway(kept) || page < 16 || page >= 2064 {
        return None;
    }
    let mut image = [[0; 512]; 16];
    let got = match kept.fetch(page, &mut image) {
        Ok(got) => got,
        Err(e) => return Some(Err(e)),
    };
    if !is_underway(kept) {
        return None;
    }
    match kept.cells(page) {
        Ok(cells) => Some(Ok(Seen {
            got,
            first: image[0][0],
            cells,
        })),
        Err(e) => Some(Err(e)),
    }
}

/// How far the event came, unless a fault has left that open.
pub fn reach(alloc: Global, kept: &mut Durable<MemDisk>) -> Option<Result<Reach, DurableFault>> {
    if !is_known(kept) {
        return None;
    }
    Some(kept.reach(alloc))
}
