//! Images of pages.
ghost use Rattle.std.specs.Prelude.{◌≡◌, ◌≢◌, ◌+◌, ◌<◌, ◌≤◌, ◌^◌, ◌++◌, length, map, take, OnOk, OnErr, IsErr, IsErrOf};
ghost use Rattle.std.specs.List.{AllByRecursion};
ghost use Rattle.ag_outside.specs.Counts.{HasRisen};
ghost use Rattle.ag_pagestore.specs.Batches.{IsBatch, IsWhole};
ghost use Rattle.ag_rules.specs.Plan.{Page_write};
ghost use Rattle.ag_durable.specs.Coming.{pages_passed, pages_broken, WasOrdered, Performs};
ghost use Rattle.ag_durable.specs.Imaging.{WritesImages};

use crate::durable::Durable;
use crate::fault::DurableFault;
use crate::progress::{Came, Progress};
use ag_model::record::PageList;
use ag_model::value::NoMemory;
use ag_outside::disk::Disk;
use ag_outside::order::Why;
use ag_page::Image;
use ag_pagestore::{PageWrite, PageWriteFault, write_batch};
use ag_writes::Order;

/// A count with more.
fn add(count: u32, more: u32) -> Result<u32, NoMemory>
    ensures { OnOk result (result ≡ Ok (count + more)) }
{
    match count.checked_add(more) {
        Some(sum) => Ok(sum),
        None => Err(NoMemory),
    }
}

/// The first of some writes.
fn first_writes(pages: &[PageWrite], count: u32) -> &[PageWrite]
    ensures { result.now ≡ take count pages.now }
{
    let (first, _) = pages.split_at((count as usize).min(pages.len()));
    first
}

/// Adds the pages of some writes to those that an event names.
fn name_pages(named: &mut PageList, pages: &[PageWrite]) -> Result<(), NoMemory>
    ensures { OnOk result (named.new ≡ named.old ++ map (λ w. w.page) pages.now) }
{
    for write in pages {
        named.push(write.page)?;
    }
    Ok(())
}

/// A sector has 512 bytes.
fn is_sector(_place: usize, sector: &[u8; 512])
    ensures { length sector.now ≡ 512 }
{
    let _ = sector.len();
}

/// An image has 16 sectors of 512 bytes.
fn has_sectors(image: &Image)
    ensures sectors { length image.now ≡ 16 }
    ensures bytes { AllByRecursion (λ s. length s ≡ 512) image.now }
{
    for (place, sector) in image.iter().enumerate() {
        is_sector(place, sector);
    }
}

/// The image of a write is whole.
fn is_whole(write: &PageWrite)
    ensures { IsWhole write.now }
{
    has_sectors(&write.image);
}

/// All images have 16 sectors of 512 bytes.
fn are_whole(pages: &[PageWrite])
    ensures { AllByRecursion IsWhole pages.now }
{
    for (place, write) in pages.iter().enumerate() {
        let _ = place;
        is_whole(write);
    }
}

/// Whether the disk took the images.
fn taken(written: Result<(), PageWriteFault>) -> Result<(), DurableFault>
    ensures refused { OnErr written (IsErr result) }
    ensures fault { IsErrOf result DurableFault.DiskFault → IsErrOf written PageWriteFault.DiskFault }
{
    match written {
        Ok(()) => Ok(()),
        Err(PageWriteFault::DiskFault) => Err(DurableFault::DiskFault),
        Err(PageWriteFault::NoMemory) => Err(DurableFault::NoMemory),
    }
}

/// The images were written and synced.
fn pass_pages(progress: &mut Progress, pages: &[PageWrite]) -> Result<(), NoMemory>
    requires few { length pages.now ≤ 8 }
    ensures { OnOk result (progress.new ≡ pages_passed progress.old (map (λ w. w.page) pages.now)) }
{
    let count = pages.len() as u32;
    progress.writes = add(progress.writes, count)?;
    progress.order = progress.order.nearer(count);
    name_pages(&mut progress.named, pages)
}

/// The order was reached in one of the images, or in their sync.
fn break_pages(progress: &mut Progress, pages: &[PageWrite]) -> Result<(), NoMemory>
    ensures { OnOk result (progress.new ≡ pages_broken progress.old.order progress.old (map (λ w. w.page) pages.now)) }
{
    match progress.order {
        Order::StopAt { writes, .. } => {
            let count = add(writes, 1)?;
            progress.writes = add(progress.writes, count)?;
            name_pages(&mut progress.named, first_writes(pages, count))?;
            progress.came = Came::Stopped;
        }
        Order::FailAt { .. } => progress.came = Came::Failed,
        Order::Free => progress.came = Came::Unknown,
    }
    Ok(())
}

/// A batch of images ended so, by what the disk says.
fn pages_by(
    progress: &mut Progress,
    went: Result<(), DurableFault>,
    why: Why,
    pages: &[PageWrite],
) -> Result<(), DurableFault>
    requires few { length pages.now ≤ 8 }
    ensures went { OnOk result (OnOk went (progress.new ≡ pages_passed progress.old (map (λ w. w.page) pages.now))) }
    ensures broke { OnOk result (IsErrOf went DurableFault.DiskFault → WasOrdered why × (progress.new ≡ pages_broken progress.old.order progress.old (map (λ w. w.page) pages.now))) }
    ensures known { OnOk result (went ≢ Err DurableFault.NoMemory) }
    ensures fault { IsErrOf result DurableFault.DiskFault → (went ≡ Err DurableFault.DiskFault) × (WasOrdered why → ⊥) }
{
    match went {
        Ok(()) => Ok(pass_pages(progress, pages)?),
        Err(DurableFault::DiskFault) => match why {
            Why::Stopped { .. } | Why::Device => Ok(break_pages(progress, pages)?),
            Why::Nothing | Why::Inner => Err(DurableFault::DiskFault),
        },
        Err(DurableFault::NoMemory) => Err(DurableFault::NoMemory),
    }
}

/// What came of a batch of images, by what the disk says. After a fault that isn't known.
fn after_pages(
    progress: &mut Progress,
    went: Result<(), DurableFault>,
    why: Why,
    pages: &[PageWrite],
) -> Result<(), DurableFault>
    requires few { length pages.now ≤ 8 }
    ensures went { OnOk result (OnOk went (progress.new ≡ pages_passed progress.old (map (λ w. w.page) pages.now))) }
    ensures broke { OnOk result (IsErrOf went DurableFault.DiskFault → WasOrdered why × (progress.new ≡ pages_broken progress.old.order progress.old (map (λ w. w.page) pages.now))) }
    ensures known { OnOk result (went ≢ Err DurableFault.NoMemory) }
    ensures fault { IsErrOf result DurableFault.DiskFault → (went ≡ Err DurableFault.DiskFault) × (WasOrdered why → ⊥) }
    ensures unknown { OnErr result (progress.new.came ≡ Came.Unknown) }
{
    let done = pages_by(progress, went, why, pages);
    if done.is_err() {
        progress.came = Came::Unknown;
    }
    done
}

impl<D: Disk> Durable<D> {
    /// Writes the images of 1 to 8 pages that rise, each with the mark after the one that the disk has there, and syncs once.
    pub fn write_pages(&mut self, pages: &[PageWrite]) -> Result<(), DurableFault>
        requires underway { self.old.progress.came ≡ Came.Underway }
        requires batch { IsBatch pages.now }
        requires within { AllByRecursion (λ w. w.page < 16 + self.old.master.pages) pages.now }
        ensures performs { OnOk result (Performs D.reads self.old (map (λ w. Page_write w.page) pages.now) self.new) }
        ensures images { OnOk result (WritesImages D.reads self.old pages.now self.new) }
        ensures appends { self.new.appends ≡ self.old.appends }
        ensures later { OnOk result (D.faults self.old.disk.disk ≤ D.faults self.new.disk.disk) }
        ensures fault { IsErrOf result DurableFault.DiskFault → HasRisen (D.faults self.old.disk.disk) (D.faults self.new.disk.disk) }
    {
        are_whole(pages);
        let went = taken(write_batch(&mut self.disk, pages));
        after_pages(&mut self.progress, went, self.disk.why(), pages)
    }
}
