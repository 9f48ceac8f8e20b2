//! A sync of its own.
ghost use Rattle.std.specs.Prelude.{◌≡◌, ◌≤◌, [], OnOk, OnErr, IsErr, IsErrOf};
ghost use Rattle.ag_outside.specs.Counts.{HasRisen};
ghost use Rattle.ag_durable.specs.Coming.{Performs};

use crate::durable::Durable;
use crate::fault::DurableFault;
use crate::progress::{Came, after_sync};
use ag_outside::disk::{Disk, DiskError};

/// Whether the disk synced.
fn taken(synced: Result<(), DiskError>) -> Result<(), DurableFault>
    ensures refused { OnErr synced (IsErr result) }
    ensures fault { IsErrOf result DurableFault.DiskFault → IsErrOf synced DiskError.Failed }
{
    match synced {
        Ok(()) => Ok(()),
        Err(DiskError::Failed) => Err(DurableFault::DiskFault),
        Err(DiskError::NoMemory) => Err(DurableFault::NoMemory),
    }
}

impl<D: Disk> Durable<D> {
    /// Syncs the disk: a batch that writes nothing.
    pub fn sync(&mut self) -> Result<(), DurableFault>
        requires underway { self.old.progress.came ≡ Came.Underway }
        ensures performs { OnOk result (Performs D.reads self.old [] self.new) }
        ensures appends { self.new.appends ≡ self.old.appends }
        ensures later { D.faults self.old.disk.disk ≤ D.faults self.new.disk.disk }
        ensures fault { IsErrOf result DurableFault.DiskFault → HasRisen (D.faults self.old.disk.disk) (D.faults self.new.disk.disk) }
    {
        let went = taken(self.disk.sync());
        after_sync(&mut self.progress, went, self.disk.why())
    }
}
