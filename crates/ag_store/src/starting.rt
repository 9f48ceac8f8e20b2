//! A start: from the disk to the log and the pages in memory.
ghost use Rattle.std.specs.Prelude.{◌≡◌, ◌+◌, ◌^◌, ◌≤◌, ◌<◌, replicate, true, false, Some, None, IfOk, OnOk, IsErrOf};
ghost use Rattle.ag_model.specs.Prefixes.{IsBlockEnd};
ghost use Rattle.ag_model.specs.Proper.{IsProper};
ghost use Rattle.ag_outside.specs.Counts.{HasRisen};
ghost use Rattle.ag_outside.specs.Shown.{reads_of};
ghost use Rattle.ag_logstore.specs.Stored.{log_end};
ghost use Rattle.ag_kept.specs.Kept.{kept_on, master_on};
ghost use Rattle.ag_kept.specs.Reaching.{how_far};
ghost use Rattle.ag_kept.specs.Standing.{IsAtHome, IsMemory};
ghost use Rattle.ag_store.specs.Standing.{AreImages, IsStore};
ghost use Rattle.ag_store.specs.Views.{caught_up, started_store, store_on};

use crate::memory::Memory;
use crate::redoing::redo_to_end;
use ag_kept::{KeptFault, Reach, read_master, start_on};
use ag_logstore::LogStore;
use ag_model::event::Suffix;
use ag_outside::disk::Disk;
use ag_outside::scripted::Scripted;
use ag_pages::Pages;
use ag_stripe::laws::starts;
use std::alloc::Global;

/// What memory has once a log was loaded: clean pages at the redo start, on which all records after it are redone.
fn load_pages<D: Disk>(
    alloc: Global,
    disk: &mut Scripted<D>,
    pages: u16,
    redo: u64,
    log: LogStore,
) -> Result<Memory, KeptFault>
    requires store { IsStore D.size D.keeps D.reads D.may_hold disk.old pages None true }
    requires redo { redo ≡ (kept_on (reads_of D.reads disk.old) true).redo }
    requires log { IsMemory D.keeps D.reads D.may_hold disk.old log }
    ensures store { IfOk result (λ m. IsStore D.size D.keeps D.reads D.may_hold disk.new pages (Some m) true) }
    ensures view { IfOk result (λ m. store_on (reads_of D.reads disk.new) pages (Some m) true 0
        ≡ caught_up (record (store_on (reads_of D.reads disk.old) pages None true 0) { kept = kept_on (reads_of D.reads disk.old) true })) }
    ensures later { OnOk result (D.faults disk.old.disk ≤ D.faults disk.new.disk) }
    ensures fault { IsErrOf result KeptFault.DiskFault → HasRisen (D.faults disk.old.disk) (D.faults disk.new.disk) }
    ensures size { D.size disk.new.disk ≡ D.size disk.old.disk }
{
    starts();
    let mut clean = Pages::new(alloc, pages, redo)?;
    redo_to_end(log.log(), disk, &mut clean)?;
    Ok(Memory {
        log,
        pages: clean,
        redo,
    })
}

/// Starts from a disk by a suffix, and tells how far it came. At its end there is what memory has.
pub(crate) fn start_whole<D: Disk>(
    alloc: Global,
    disk: &mut Scripted<D>,
    pages: u16,
    suffix: &Suffix,
) -> Result<(Reach, Option<Memory>), KeptFault>
    requires store { IsStore D.size D.keeps D.reads D.may_hold disk.old pages None true }
    requires small { (master_on (reads_of D.reads disk.old)).incarnation + 1 < 2 ^ 64 }
    ensures reach { IfOk result (λ x. x.0 ≡ how_far suffix.now 1 3) }
    ensures store { IfOk result (λ x. IsStore D.size D.keeps D.reads D.may_hold disk.new pages x.1 true) }
    ensures view { IfOk result (λ x. store_on (reads_of D.reads disk.new) pages x.1 true 0 ≡ started_store (store_on (reads_of D.reads disk.old) pages None true 0) x.0) }
    ensures later { OnOk result (D.faults disk.old.disk ≤ D.faults disk.new.disk) }
    ensures fault { IsErrOf result KeptFault.DiskFault → HasRisen (D.faults disk.old.disk) (D.faults disk.new.disk) }
    ensures size { D.size disk.new.disk ≡ D.size disk.old.disk }
{
    let master = read_master(disk)?;
    let started = start_on(alloc, disk, suffix)?;
    let (reach, found) = started;
    match found {
        Some(log) => {
            let memory = load_pages(alloc, disk, pages, master.redo, log)?;
            Ok((reach, Some(memory)))
        }
        None => Ok((reach, None)),
    }
}
