//! Flush.
ghost use Rattle.std.specs.Prelude.{◌≡◌, ◌≤◌, ℕ, true, false, Some, IfOk, OnOk, OnErr, IsErrOf};
ghost use Rattle.ag_outside.specs.Counts.{HasRisen};
ghost use Rattle.ag_outside.specs.Disks.{Image, Only};
ghost use Rattle.ag_outside.specs.Shown.{reads_of, holds_of};
ghost use Rattle.ag_logstore.specs.Stored.{log_end};
ghost use Rattle.ag_rules.specs.Replica.{least};
ghost use Rattle.ag_kept.specs.Kept.{SamePages};
ghost use Rattle.ag_kept.specs.Standing.{IsAtHome};
ghost use Rattle.ag_pages.specs.Flush.{batches};
ghost use Rattle.ag_pages.specs.Views.{is_page, is_dirty};
ghost use Rattle.ag_store.specs.Flushing.{WrotePages, TakesPages, HaveImages, PagesThenMaster};
ghost use Rattle.ag_store.specs.Standing.{IsStore};
ghost use Rattle.ag_store.specs.Views.{flushed_store, store_on};

use crate::memory::Memory;
use crate::redoing::fault_of_read;
use crate::store::Store;
use ag_kept::{KeptFault, save_redo_start};
use ag_outside::disk::Disk;
use ag_outside::order::Arm;
use ag_outside::scripted::Scripted;
use ag_pages::{FlushFault, Pages};
use ag_stripe::laws::have_images;

/// Writes the dirty pages, outside of any order.
fn write_pages<D: Disk>(disk: &mut Scripted<D>, pages: &mut Pages) -> Result<(), KeptFault>
    requires place { log_end ≤ D.size disk.old.disk }
    requires home { IsAtHome D.keeps D.reads disk.old }
    requires count { pages.old.count ≤ 2048 }
    requires images { HaveImages (reads_of D.reads disk.old) pages.old }
    ensures home { OnOk result (IsAtHome D.keeps D.reads disk.new) }
    ensures wrote { OnOk result (WrotePages D.keeps D.reads disk.old disk.new pages.old pages.new) }
    ensures calls { OnOk result (TakesPages D.size D.keeps D.reads D.may_hold D.faults disk.old (batches pages.old) disk.new) }
    ensures durable { OnOk result ((((page : ℕ) → is_page pages.old page ≡ true → is_dirty pages.old page ≡ false) → Only (reads_of D.reads disk.old) (holds_of D.keeps D.may_hold disk.old)) →
        Only (reads_of D.reads disk.new) (holds_of D.keeps D.may_hold disk.new)) }
    ensures count { pages.new.count ≡ pages.old.count }
    ensures applied { pages.new.applied ≡ pages.old.applied }
    ensures later { OnOk result (D.faults disk.old.disk ≤ D.faults disk.new.disk) }
    ensures fault { IsErrOf result KeptFault.DiskFault → HasRisen (D.faults disk.old.disk) (D.faults disk.new.disk) }
    ensures size { D.size disk.new.disk ≡ D.size disk.old.disk }
{
    disk.arm(Arm::Free);
    match pages.flush(disk) {
        Ok(()) => Ok(()),
        Err(FlushFault::Disk) => Err(fault_of_read(disk.why())),
        Err(FlushFault::NoMemory) => Err(KeptFault::NoMemory),
        Err(FlushFault::Unlawful { .. }) => unreachable!(),
    }
}

/// Writes the dirty pages, and then the master with this redo start, an LSN.
fn write_in_order<D: Disk>(
    disk: &mut Scripted<D>,
    pages: &mut Pages,
    redo: u64,
) -> Result<(), KeptFault>
    requires place { log_end ≤ D.size disk.old.disk }
    requires home { IsAtHome D.keeps D.reads disk.old }
    requires count { pages.old.count ≤ 2048 }
    requires images { (image : Image) → SamePages (reads_of D.reads disk.old) image → HaveImages image pages.old }
    ensures order { OnOk result (PagesThenMaster D.size D.keeps D.reads D.may_hold D.faults disk.old pages.old redo pages.new disk.new) }
    ensures count { pages.new.count ≡ pages.old.count }
    ensures applied { pages.new.applied ≡ pages.old.applied }
    ensures later { OnOk result (D.faults disk.old.disk ≤ D.faults disk.new.disk) }
    ensures fault { IsErrOf result KeptFault.DiskFault → HasRisen (D.faults disk.old.disk) (D.faults disk.new.disk) }
    ensures size { D.size disk.new.disk ≡ D.size disk.old.disk }
{
    write_pages(disk, pages)?;
    save_redo_start(disk, redo)?;
    Ok(())
}

/// Writes the dirty pages of a replica in rising order, by eights with a sync after each, and then its master, whose redo start is
/// the least LSN to which a stripe was redone. It answers that LSN. The disk is given no order.
pub fn flush_pages<D: Disk>(disk: &mut Scripted<D>, pages: &mut Pages) -> Result<u64, KeptFault>
    requires place { log_end ≤ D.size disk.old.disk }
    requires home { IsAtHome D.keeps D.reads disk.old }
    requires count { pages.old.count ≤ 2048 }
    requires images { HaveImages (reads_of D.reads disk.old) pages.old }
    ensures lsn { IfOk result (λ lsn. lsn ≡ least pages.old.applied) }
    ensures order { OnOk result (PagesThenMaster D.size D.keeps D.reads D.may_hold D.faults disk.old pages.old (least pages.old.applied) pages.new disk.new) }
    ensures count { pages.new.count ≡ pages.old.count }
    ensures applied { pages.new.applied ≡ pages.old.applied }
    ensures later { OnOk result (D.faults disk.old.disk ≤ D.faults disk.new.disk) }
    ensures fault { IsErrOf result KeptFault.DiskFault → HasRisen (D.faults disk.old.disk) (D.faults disk.new.disk) }
    ensures size { D.size disk.new.disk ≡ D.size disk.old.disk }
{
    let redo = pages.least_applied();
    write_in_order(disk, pages, redo)?;
    Ok(redo)
}

/// Flushes what a replica has in memory.
fn flush_on<D: Disk>(
    disk: &mut Scripted<D>,
    pages: u16,
    memory: Memory,
) -> Result<Memory, KeptFault>
    requires { IsStore D.size D.keeps D.reads D.may_hold disk.old pages (Some memory) true }
    ensures lsn { IfOk result (λ m. m.redo ≡ least memory.pages.applied) }
    ensures store { IfOk result (λ m. IsStore D.size D.keeps D.reads D.may_hold disk.new pages (Some m) true) }
    ensures view { IfOk result (λ m. store_on (reads_of D.reads disk.new) pages (Some m) true 0 ≡ flushed_store (store_on (reads_of D.reads disk.old) pages (Some memory) true 0)) }
    ensures later { OnOk result (D.faults disk.old.disk ≤ D.faults disk.new.disk) }
    ensures fault { IsErrOf result KeptFault.DiskFault → HasRisen (D.faults disk.old.disk) (D.faults disk.new.disk) }
    ensures size { D.size disk.new.disk ≡ D.size disk.old.disk }
{
    have_images();
    let Memory { log, mut pages, .. } = memory;
    let redo = flush_pages(disk, &mut pages)?;
    Ok(Memory { log, pages, redo })
}

impl<D: Disk> Store<D> {
    /// Writes the dirty pages in rising order, by eights with a sync after each, and then the master, whose redo start is the
    /// least LSN to which a stripe was redone. It answers that.
    pub fn flush(&mut self) -> Result<u64, KeptFault>
        requires sound { self.old.sound ≡ true }
        requires up { self.old.kept.loaded ≡ true }
        ensures lsn { IfOk result (λ lsn. lsn ≡ least self.old.applied) }
        ensures store { OnOk result (self.new ≡ record (flushed_store self.old) { faults = self.new.faults }) }
        ensures later { OnOk result (self.old.faults ≤ self.new.faults) }
        ensures err { OnErr result (self.new.sound ≡ false) }
        ensures fault { IsErrOf result KeptFault.DiskFault → HasRisen self.old.faults self.new.faults }
    {
        match self.memory.take() {
            None => unreachable!(),
            Some(memory) => match flush_on(&mut self.disk, self.pages, memory) {
                Ok(memory) => {
                    let lsn = memory.redo;
                    self.memory = Some(memory);
                    Ok(lsn)
                }
                Err(e) => {
                    self.is_sound = false;
                    Err(e)
                }
            },
        }
    }
}
