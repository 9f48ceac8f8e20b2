//! A disk of zeros that becomes that of a replica.
ghost use Rattle.std.specs.Prelude.{◌≡◌, ◌≤◌, [], true, false, IfOk, IfErr, OnOk, IsErrOf};
ghost use Rattle.ag_model.specs.Rows.{page_numbers};
ghost use Rattle.ag_outside.specs.Counts.{HasRisen};
ghost use Rattle.ag_outside.specs.Shown.{reads_of};
ghost use Rattle.ag_master.specs.Spelling.{HasSpelling};
ghost use Rattle.ag_logstore.specs.Stored.{log_end, no_log};
ghost use Rattle.ag_logstore.specs.Stores.{IsCurrent};
ghost use Rattle.ag_kept.specs.Kept.{master_on, master_of};
ghost use Rattle.ag_kept.specs.Standing.{IsBlank};
ghost use Rattle.ag_kept.specs.Starting.{with_master};
ghost use Rattle.ag_keeping.specs.Keeping.{kept_on, store_on};
ghost use Rattle.ag_durable.specs.Views.{reached_of};
ghost use Rattle.ag_durable.specs.Opening.{CanLoad, at_first};

use crate::durable::Durable;
use crate::fault::DurableFault;
use crate::progress::Came;
use ag_master::{Master, MasterFault, save};
use ag_model::page_set::PageSet;
use ag_outside::disk::Disk;
use ag_outside::order::Arm;
use ag_outside::scripted::Scripted;
use std::alloc::Global;

/// The first master, of term 1, with so many pages, of the replica of this number.
fn first_master(pages: u16, replica: u8) -> Master
    ensures is { result ≡ master_of 1 0 1 pages replica }
    ensures fits { HasSpelling result }
{
    let foreign = PageSet::empty();
    let _ = foreign.to_bytes();
    Master {
        format: 1,
        state: 0,
        incarnation: 1,
        term: 1,
        cut: 0,
        undo: 0,
        redo: 1,
        pages,
        replica,
        foreign,
    }
}

/// Writes the first master on a disk of zeros.
fn write_first<D: Disk>(disk: &mut Scripted<D>, master: &Master) -> Result<(), DurableFault>
    requires room { log_end ≤ D.size disk.old.disk }
    requires blank { IsBlank D.keeps D.reads disk.old }
    requires master { master.now ≡ master_of 1 0 1 master.now.pages master.now.replica }
    requires fits { HasSpelling master.now }
    requires few { master.now.pages ≤ 2048 }
    ensures can { OnOk result (CanLoad D.size D.keeps D.reads disk.new) }
    ensures written { OnOk result (reads_of D.reads disk.new ≡ with_master (reads_of D.reads disk.old) master.now) }
    ensures later { OnOk result (D.faults disk.old.disk ≤ D.faults disk.new.disk) }
    ensures fault { IsErrOf result DurableFault.DiskFault → HasRisen (D.faults disk.old.disk) (D.faults disk.new.disk) }
{
    disk.arm(Arm::Free);
    match save(disk, master) {
        Ok(()) => Ok(()),
        Err(MasterFault::DiskFault) => Err(DurableFault::DiskFault),
        Err(MasterFault::NoMemory) => Err(DurableFault::NoMemory),
    }
}

impl<D: Disk> Durable<D> {
    /// Makes a disk of zeros that of a replica in term 1, with so many data pages, whose log has no record yet. The block that
    /// starts the term can follow. The disk comes back where it fails.
    pub fn format(
        alloc: Global,
        disk: Scripted<D>,
        pages: u16,
        replica: u8,
    ) -> Result<Durable<D>, (DurableFault, Scripted<D>)>
        requires room { log_end ≤ D.size disk.disk }
        requires blank { IsBlank D.keeps D.reads disk }
        requires few { pages ≤ 2048 }
        ensures reached { IfOk result (λ v. reached_of D.reads v ≡ at_first (kept_on pages (with_master (reads_of D.reads disk) (master_of 1 0 1 pages replica)))) }
        ensures underway { IfOk result (λ v. v.progress.came ≡ Came.Underway) }
        ensures image { IfOk result (λ v. reads_of D.reads v.disk ≡ with_master (reads_of D.reads disk) (master_of 1 0 1 pages replica)) }
        ensures master { IfOk result (λ v. v.master ≡ master_of 1 0 1 pages replica) }
        ensures log { IfOk result (λ v. v.log ≡ record { log = no_log; cut = 0; incarnation = 1; is_closed = false }) }
        ensures rows { IfOk result (λ v. v.suspects ≡ []) }
        ensures appends { IfOk result (λ v. v.appends ≡ true) }
        ensures later { IfOk result (λ v. D.faults disk.disk ≤ D.faults v.disk.disk) }
        ensures fault { IfErr result (λ x. x.0 ≡ DurableFault.DiskFault → HasRisen (D.faults disk.disk) (D.faults x.1.disk)) }
    {
        let mut disk = disk;
        match write_first(&mut disk, &first_master(pages, replica)) {
            Ok(()) => {
                let mut durable = Durable::load(alloc, disk)?;
                durable.appends = true;
                Ok(durable)
            }
            Err(e) => Err((e, disk)),
        }
    }
}
