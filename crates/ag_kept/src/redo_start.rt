//! The master with another redo start.
ghost use Rattle.std.specs.Prelude.{◌≡◌, ◌≤◌, Bool, OnOk, IsErrOf};
ghost use Rattle.ag_outside.specs.Counts.{HasRisen};
ghost use Rattle.ag_outside.specs.Shown.{reads_of};
ghost use Rattle.ag_logstore.specs.Stored.{log_end};
ghost use Rattle.ag_logstore.specs.Stores.{StoreView};
ghost use Rattle.ag_kept.specs.Kept.{master_on, kept_on, SamePages};
ghost use Rattle.ag_kept.specs.Saving.{SavesMaster};
ghost use Rattle.ag_kept.specs.Standing.{IsAtHome, IsMemory};

use crate::fault::KeptFault;
use crate::opening::save_freely;
use crate::starting::read_master;
use ag_master::Master;
use ag_outside::disk::Disk;
use ag_outside::scripted::Scripted;

/// Saves the master of a replica's disk with another redo start, an LSN, outside of any order.
pub fn save_redo_start<D: Disk>(disk: &mut Scripted<D>, redo: u64) -> Result<(), KeptFault>
    requires place { log_end ≤ D.size disk.old.disk }
    requires home { IsAtHome D.keeps D.reads disk.old }
    ensures home { OnOk result (IsAtHome D.keeps D.reads disk.new) }
    ensures kept { OnOk result ((loaded : Bool) → kept_on (reads_of D.reads disk.new) loaded ≡ record (kept_on (reads_of D.reads disk.old) loaded) { redo = redo }) }
    ensures memory { OnOk result ((s : StoreView) → IsMemory D.keeps D.reads D.may_hold disk.old s → IsMemory D.keeps D.reads D.may_hold disk.new s) }
    ensures pages { OnOk result (SamePages (reads_of D.reads disk.old) (reads_of D.reads disk.new)) }
    ensures calls { OnOk result (SavesMaster D.keeps D.reads D.may_hold D.faults disk.old (record (master_on (reads_of D.reads disk.old)) { redo = redo }) disk.new) }
    ensures later { OnOk result (D.faults disk.old.disk ≤ D.faults disk.new.disk) }
    ensures fault { IsErrOf result KeptFault.DiskFault → HasRisen (D.faults disk.old.disk) (D.faults disk.new.disk) }
    ensures size { D.size disk.new.disk ≡ D.size disk.old.disk }
{
    match read_master(disk) {
        Ok(master) => save_freely(disk, &Master { redo, ..master }),
        Err(e) => Err(e),
    }
}
