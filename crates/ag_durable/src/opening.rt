//! A replica's data on a disk that has it already, or on a disk of zeros.
ghost use Rattle.std.specs.Prelude.{◌≡◌, ◌≤◌, ◌<◌, ◌^◌, ℕ, [], Some, replicate, IsTrue, true, false, IfOk, IfErr, OnOk, IsErrOf};
ghost use Rattle.ag_outside.specs.Counts.{HasRisen};
ghost use Rattle.ag_outside.specs.Disks.{Only};
ghost use Rattle.ag_outside.specs.Shown.{reads_of, holds_of};
ghost use Rattle.ag_outside.specs.declared.order.Arm.TheVariants.{Free};
ghost use Rattle.ag_logstore.specs.Stored.{log_end, no_log};
ghost use Rattle.ag_master.specs.declared.master.Master.{Master};
ghost use Rattle.ag_master.specs.declared.sector.Loaded.TheVariants.{Is};
ghost use Rattle.ag_kept.specs.Kept.{master_on};
ghost use Rattle.ag_suspect.specs.Rows.{suspects_on};
ghost use Rattle.ag_rules.specs.Replica.{Kept};
ghost use Rattle.ag_writes.specs.Performing.{begun, disk_of};
ghost use Rattle.ag_keeping.specs.Keeping.{kept_on, store_on};
ghost use Rattle.ag_durable.specs.Views.{kept_of, reached_of};
ghost use Rattle.ag_durable.specs.Opening.{CanLoad, at_first};

use crate::durable::Durable;
use crate::fault::DurableFault;
use crate::progress::{Came, Progress};
use ag_logstore::{LogFault, LogStore};
use ag_master::{Loaded, Master, MasterFault};
use ag_model::event::Suffix;
use ag_outside::disk::Disk;
use ag_outside::order::Arm;
use ag_outside::scripted::Scripted;
use ag_suspect::{SuspectFault, Suspects};
use std::alloc::Global;

/// What memory has of a disk.
#[derive(Drop)]
struct Found {
    master: Master,
    log: LogStore,
    suspects: Suspects,
}

/// The master that a sector was found to be.
fn master_in(loaded: Loaded) -> Master
    requires { (m : Master) × (loaded ≡ Is m) }
    ensures { loaded ≡ Is result }
{
    match loaded {
        Loaded::Is(master) => master,
        Loaded::Fresh => unreachable!(),
        Loaded::Other => unreachable!(),
    }
}

/// The master of a disk, which is read outside of any order.
fn read_master<D: Disk>(disk: &mut Scripted<D>) -> Result<Master, DurableFault>
    requires can { CanLoad D.size D.keeps D.reads disk.old }
    ensures master { IfOk result (λ m. m ≡ master_on (reads_of D.reads disk.old)) }
    ensures same { OnOk result (reads_of D.reads disk.new ≡ reads_of D.reads disk.old) }
    ensures can { OnOk result (CanLoad D.size D.keeps D.reads disk.new) }
    ensures later { OnOk result (D.faults disk.old.disk ≤ D.faults disk.new.disk) }
    ensures fault { IsErrOf result DurableFault.DiskFault → HasRisen (D.faults disk.old.disk) (D.faults disk.new.disk) }
{
    disk.arm(Arm::Free);
    match ag_master::load(disk) {
        Ok(loaded) => Ok(master_in(loaded)),
        Err(MasterFault::DiskFault) => Err(DurableFault::DiskFault),
        Err(MasterFault::NoMemory) => Err(DurableFault::NoMemory),
    }
}

/// The log of a disk with this master, which is synced and read outside of any order.
fn read_log<D: Disk>(
    alloc: Global,
    disk: &mut Scripted<D>,
    master: &Master,
) -> Result<LogStore, DurableFault>
    requires can { CanLoad D.size D.keeps D.reads disk.old }
    requires master { master.now ≡ master_on (reads_of D.reads disk.old) }
    ensures log { IfOk result (λ s. s ≡ store_on (reads_of D.reads disk.old)) }
    ensures same { OnOk result (reads_of D.reads disk.new ≡ reads_of D.reads disk.old) }
    ensures synced { OnOk result (Only (reads_of D.reads disk.new) (holds_of D.keeps D.may_hold disk.new)) }
    ensures can { OnOk result (CanLoad D.size D.keeps D.reads disk.new) }
    ensures later { OnOk result (D.faults disk.old.disk ≤ D.faults disk.new.disk) }
    ensures fault { IsErrOf result DurableFault.DiskFault → HasRisen (D.faults disk.old.disk) (D.faults disk.new.disk) }
{
    disk.arm(Arm::Free);
    match ag_logstore::load(alloc, disk, master.cut, master.incarnation) {
        Ok(log) => Ok(log),
        Err(LogFault::DiskFault) => Err(DurableFault::DiskFault),
        Err(_) => Err(DurableFault::NoMemory),
    }
}

/// The suspect rows of a disk, which are read outside of any order.
fn read_suspects<D: Disk>(alloc: Global, disk: &mut Scripted<D>) -> Result<Suspects, DurableFault>
    requires can { CanLoad D.size D.keeps D.reads disk.old }
    requires synced { Only (reads_of D.reads disk.old) (holds_of D.keeps D.may_hold disk.old) }
    ensures rows { IfOk result (λ rows. rows ≡ suspects_on (reads_of D.reads disk.old)) }
    ensures same { OnOk result (reads_of D.reads disk.new ≡ reads_of D.reads disk.old) }
    ensures synced { OnOk result (Only (reads_of D.reads disk.new) (holds_of D.keeps D.may_hold disk.new)) }
    ensures can { OnOk result (CanLoad D.size D.keeps D.reads disk.new) }
    ensures later { OnOk result (D.faults disk.old.disk ≤ D.faults disk.new.disk) }
    ensures fault { IsErrOf result DurableFault.DiskFault → HasRisen (D.faults disk.old.disk) (D.faults disk.new.disk) }
{
    disk.arm(Arm::Free);
    match ag_suspect::load(alloc, disk) {
        Ok(rows) => Ok(rows),
        Err(SuspectFault::DiskFault) => Err(DurableFault::DiskFault),
        Err(_) => Err(DurableFault::NoMemory),
    }
}

/// What memory has of a disk.
fn read_all<D: Disk>(alloc: Global, disk: &mut Scripted<D>) -> Result<Found, DurableFault>
    requires can { CanLoad D.size D.keeps D.reads disk.old }
    ensures master { IfOk result (λ f. f.master ≡ master_on (reads_of D.reads disk.old)) }
    ensures log { IfOk result (λ f. f.log ≡ store_on (reads_of D.reads disk.old)) }
    ensures rows { IfOk result (λ f. f.suspects ≡ suspects_on (reads_of D.reads disk.old)) }
    ensures same { OnOk result (reads_of D.reads disk.new ≡ reads_of D.reads disk.old) }
    ensures synced { OnOk result (Only (reads_of D.reads disk.new) (holds_of D.keeps D.may_hold disk.new)) }
    ensures can { OnOk result (CanLoad D.size D.keeps D.reads disk.new) }
    ensures later { OnOk result (D.faults disk.old.disk ≤ D.faults disk.new.disk) }
    ensures fault { IsErrOf result DurableFault.DiskFault → HasRisen (D.faults disk.old.disk) (D.faults disk.new.disk) }
{
    let master = read_master(disk)?;
    let log = read_log(alloc, disk, &master)?;
    let suspects = read_suspects(alloc, disk)?;
    Ok(Found {
        master,
        log,
        suspects,
    })
}

impl<D: Disk> Durable<D> {
    /// Reads what the disk of a replica keeps. No block can follow the log until a master with a higher incarnation is saved,
    /// as blocks of this one may stand behind it. The disk comes back where it fails.
    pub fn load(alloc: Global, disk: Scripted<D>) -> Result<Durable<D>, (DurableFault, Scripted<D>)>
        requires can { CanLoad D.size D.keeps D.reads disk }
        ensures reached { IfOk result (λ v. reached_of D.reads v ≡ at_first (kept_on (master_on (reads_of D.reads disk)).pages (reads_of D.reads disk))) }
        ensures underway { IfOk result (λ v. v.progress.came ≡ Came.Underway) }
        ensures same { IfOk result (λ v. reads_of D.reads v.disk ≡ reads_of D.reads disk) }
        ensures master { IfOk result (λ v. v.master ≡ master_on (reads_of D.reads disk)) }
        ensures log { IfOk result (λ v. v.log ≡ store_on (reads_of D.reads disk)) }
        ensures rows { IfOk result (λ v. v.suspects ≡ suspects_on (reads_of D.reads disk)) }
        ensures appends { IfOk result (λ v. v.appends ≡ false) }
        ensures later { IfOk result (λ v. D.faults disk.disk ≤ D.faults v.disk.disk) }
        ensures fault { IfErr result (λ x. x.0 ≡ DurableFault.DiskFault → HasRisen (D.faults disk.disk) (D.faults x.1.disk)) }
    {
        let mut disk = disk;
        match read_all(alloc, &mut disk) {
            Ok(found) => {
                disk.arm(Arm::Free);
                Ok(Durable {
                    disk,
                    log: found.log,
                    master: found.master,
                    suspects: found.suspects,
                    appends: false,
                    progress: Progress::begun(alloc, &Suffix::Whole),
                })
            }
            Err(e) => Err((e, disk)),
        }
    }
}
