//! What a start reads and writes.
ghost use Rattle.std.specs.Prelude.{◌≡◌, ◌⊎◌, ◌+◌, ◌^◌, ◌≤◌, ◌<◌, [], false, is_some, length, Contains, IsTrue, IfOk, OnOk, IsErrOf};
ghost use Rattle.std.specs.Option.{MatchOption};
ghost use Rattle.ag_outside.specs.declared.order.Arm.TheVariants.{Fail};
ghost use Rattle.ag_outside.specs.Counts.{HasRisen};
ghost use Rattle.ag_outside.specs.Calls.{IsReadOnly};
ghost use Rattle.ag_outside.specs.Disks.{Only};
ghost use Rattle.ag_outside.specs.Shown.{reads_of, holds_of, did_of};
ghost use Rattle.ag_logstore.specs.Stored.{log_end};
ghost use Rattle.ag_model.specs.Blocks.{cut_at};
ghost use Rattle.ag_master.specs.Spelling.{IsKept};
ghost use Rattle.ag_master.specs.declared.sector.Loaded.TheVariants.{Is};
ghost use Rattle.ag_master.specs.declared.master.Master.{Master};
ghost use Rattle.ag_kept.specs.Ending.{IsSettled, next, MayReach};
ghost use Rattle.ag_kept.specs.Kept.{master_on, kept_on, started, SamePages};
ghost use Rattle.ag_kept.specs.Reaching.{how_far};
ghost use Rattle.ag_kept.specs.Saving.{freed};
ghost use Rattle.ag_kept.specs.Standing.{IsAtHome, IsMemory};
ghost use Rattle.ag_kept.specs.Starting.{WasLoaded, raised_master, raised_so_far};

use crate::appending::reached;
use crate::fault::KeptFault;
use crate::reach::{Reach, order_of};
use ag_logstore::{LogFault, LogStore, load};
use ag_master::{Loaded, Master, MasterFault, save};
use ag_model::event::Suffix;
use ag_outside::disk::Disk;
use ag_outside::order::{Arm, Why};
use ag_outside::scripted::Scripted;
use std::alloc::Global;

/// The master that a sector was found to be.
fn master_in(loaded: Loaded) -> Master
    requires { (m : Master) × (loaded ≡ Is m) }
    ensures { loaded ≡ Is result }
{
    match loaded {
        Loaded::Is(master) => master,
        Loaded::Fresh => unreachable!(),
        Loaded::Other => unreachable!(),
    }
}

/// The master of a replica's disk. It is read outside of any order.
pub fn read_master<D: Disk>(disk: &mut Scripted<D>) -> Result<Master, KeptFault>
    requires place { log_end ≤ D.size disk.old.disk }
    requires home { IsAtHome D.keeps D.reads disk.old }
    ensures master { IfOk result (λ m. m ≡ master_on (reads_of D.reads disk.old)) }
    ensures same { OnOk result (reads_of D.reads disk.new ≡ reads_of D.reads disk.old) }
    ensures settled { OnOk result (IsSettled D.keeps disk.old disk.new) }
    ensures calls { OnOk result (IsReadOnly (did_of D.keeps D.reads D.may_hold D.faults) (freed disk.old) disk.new) }
    ensures later { OnOk result (D.faults disk.old.disk ≤ D.faults disk.new.disk) }
    ensures fault { IsErrOf result KeptFault.DiskFault → HasRisen (D.faults disk.old.disk) (D.faults disk.new.disk) }
    ensures size { D.size disk.new.disk ≡ D.size disk.old.disk }
{
    disk.arm(Arm::Free);
    match ag_master::load(disk) {
        Ok(loaded) => Ok(master_in(loaded)),
        Err(MasterFault::DiskFault) => Err(KeptFault::DiskFault),
        Err(MasterFault::NoMemory) => Err(KeptFault::NoMemory),
    }
}

/// Syncs and reads the log that this master tells. There is none where the order has the sync fail.
pub(crate) fn load_log<D: Disk>(
    alloc: Global,
    disk: &mut Scripted<D>,
    master: &Master,
) -> Result<Option<LogStore>, KeptFault>
    requires place { log_end ≤ D.size disk.old.disk }
    requires home { IsAtHome D.keeps D.reads disk.old }
    ensures loaded { IfOk result (λ found. MatchOption found (disk.old.order ≡ Fail (next disk.old.calls)) (WasLoaded D.keeps D.reads D.may_hold D.faults disk.old disk.new master.now)) }
    ensures durable { IfOk result (λ found. MatchOption found (Unit {0}) (λ s. Only (reads_of D.reads disk.old) (holds_of D.keeps D.may_hold disk.new))) }
    ensures same { OnOk result (reads_of D.reads disk.new ≡ reads_of D.reads disk.old) }
    ensures settled { OnOk result (IsSettled D.keeps disk.old disk.new) }
    ensures later { OnOk result (D.faults disk.old.disk ≤ D.faults disk.new.disk) }
    ensures fault { IsErrOf result KeptFault.DiskFault → HasRisen (D.faults disk.old.disk) (D.faults disk.new.disk) }
    ensures size { D.size disk.new.disk ≡ D.size disk.old.disk }
{
    match load(alloc, disk, master.cut, master.incarnation) {
        Ok(store) => Ok(Some(store)),
        Err(LogFault::DiskFault) => match disk.why() {
            Why::Device => Ok(None),
            _ => Err(KeptFault::DiskFault),
        },
        Err(_) => Err(KeptFault::NoMemory),
    }
}

/// Cuts a store at its end for the next incarnation, and saves the master of that.
pub(crate) fn raise<D: Disk>(
    disk: &mut Scripted<D>,
    store: &mut LogStore,
    master: &Master,
) -> Result<Reach, KeptFault>
    requires place { log_end ≤ D.size disk.old.disk }
    requires unsynced { disk.old.unsynced ≡ [] }
    requires keeps { IsTrue (D.keeps disk.old.disk) }
    requires kept { IsKept master.now }
    requires block { (length store.old.log.records ≡ 0) ⊎ Contains store.old.log.ends (length store.old.log.records) }
    requires incarnation { store.old.incarnation ≡ master.now.incarnation }
    requires small { master.now.incarnation + 1 < 2 ^ 64 }
    ensures short { length store.old.log.records < 2 ^ 64 }
    ensures store { store.new
        ≡ record { log = cut_at (length store.old.log.records) store.old.log; cut = length store.old.log.records; incarnation = master.now.incarnation + 1; is_closed = store.old.is_closed } }
    ensures image { IfOk result (λ r. reads_of D.reads disk.new ≡ raised_so_far (reads_of D.reads disk.old) (raised_master master.now (length store.old.log.records)) r) }
    ensures settled { OnOk result (IsSettled D.keeps disk.old disk.new) }
    ensures durable { result ≡ Ok Reach.End → Only (reads_of D.reads disk.new) (holds_of D.keeps D.may_hold disk.new) }
    ensures reach { IfOk result (MayReach disk.old.order (next disk.old.writes) (next disk.old.calls) (next (next disk.old.calls))) }
    ensures later { OnOk result (D.faults disk.old.disk ≤ D.faults disk.new.disk) }
    ensures fault { IsErrOf result KeptFault.DiskFault → HasRisen (D.faults disk.old.disk) (D.faults disk.new.disk) }
    ensures size { D.size disk.new.disk ≡ D.size disk.old.disk }
{
    let end = store.end();
    let incarnation = master.incarnation + 1;
    store.cut(end, incarnation);
    let raised = Master {
        cut: end,
        incarnation,
        ..*master
    };
    match save(disk, &raised) {
        Ok(()) => Ok(Reach::End),
        Err(MasterFault::DiskFault) => reached(disk.why(), 1),
        Err(MasterFault::NoMemory) => Err(KeptFault::NoMemory),
    }
}

/// Starts from a disk by a suffix, and tells how far it came. At its end there is the store.
pub fn start_on<D: Disk>(
    alloc: Global,
    disk: &mut Scripted<D>,
    suffix: &Suffix,
) -> Result<(Reach, Option<LogStore>), KeptFault>
    requires place { log_end ≤ D.size disk.old.disk }
    requires home { IsAtHome D.keeps D.reads disk.old }
    requires small { (master_on (reads_of D.reads disk.old)).incarnation + 1 < 2 ^ 64 }
    ensures reach { IfOk result (λ x. x.0 ≡ how_far suffix.now 1 3) }
    ensures home { OnOk result (IsAtHome D.keeps D.reads disk.new) }
    ensures kept { IfOk result (λ x. kept_on (reads_of D.reads disk.new) (is_some x.1) ≡ started (kept_on (reads_of D.reads disk.old) false) x.0) }
    ensures memory { IfOk result (λ x. MatchOption x.1 (Unit {0}) (IsMemory D.keeps D.reads D.may_hold disk.new)) }
    ensures pages { OnOk result (SamePages (reads_of D.reads disk.old) (reads_of D.reads disk.new)) }
    ensures later { OnOk result (D.faults disk.old.disk ≤ D.faults disk.new.disk) }
    ensures fault { IsErrOf result KeptFault.DiskFault → HasRisen (D.faults disk.old.disk) (D.faults disk.new.disk) }
    ensures size { D.size disk.new.disk ≡ D.size disk.old.disk }
{
    match read_master(disk) {
        Ok(master) => start_by(alloc, disk, &master, suffix),
        Err(e) => Err(e),
    }
}

/// The same with the master that was read.
fn start_by<D: Disk>(
    alloc: Global,
    disk: &mut Scripted<D>,
    master: &Master,
    suffix: &Suffix,
) -> Result<(Reach, Option<LogStore>), KeptFault>
    requires place { log_end ≤ D.size disk.old.disk }
    requires home { IsAtHome D.keeps D.reads disk.old }
    requires master { master.now ≡ master_on (reads_of D.reads disk.old) }
    requires small { master.now.incarnation + 1 < 2 ^ 64 }
    ensures reach { IfOk result (λ x. x.0 ≡ how_far suffix.now 1 3) }
    ensures home { OnOk result (IsAtHome D.keeps D.reads disk.new) }
    ensures kept { IfOk result (λ x. kept_on (reads_of D.reads disk.new) (is_some x.1) ≡ started (kept_on (reads_of D.reads disk.old) false) x.0) }
    ensures memory { IfOk result (λ x. MatchOption x.1 (Unit {0}) (IsMemory D.keeps D.reads D.may_hold disk.new)) }
    ensures pages { OnOk result (SamePages (reads_of D.reads disk.old) (reads_of D.reads disk.new)) }
    ensures later { OnOk result (D.faults disk.old.disk ≤ D.faults disk.new.disk) }
    ensures fault { IsErrOf result KeptFault.DiskFault → HasRisen (D.faults disk.old.disk) (D.faults disk.new.disk) }
    ensures size { D.size disk.new.disk ≡ D.size disk.old.disk }
{
    disk.arm(order_of(suffix));
    match load_log(alloc, disk, master) {
        Ok(Some(mut store)) => match raise(disk, &mut store, master) {
            Ok(Reach::End) => Ok((Reach::End, Some(store))),
            Ok(Reach::Stop { whole }) => Ok((Reach::Stop { whole }, None)),
            Ok(Reach::Fault) => Ok((Reach::Fault, None)),
            Err(e) => Err(e),
        },
        Ok(None) => Ok((Reach::Fault, None)),
        Err(e) => Err(e),
    }
}
