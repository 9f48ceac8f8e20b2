//! Suspect rows that are noted and marked.
ghost use Rattle.std.specs.Prelude.{◌≡◌, ◌≤◌, ◌<◌, ◌^◌, ◌∷◌, [], true, OnOk, OnErr, IsErr, IsErrOf};
ghost use Rattle.ag_outside.specs.Counts.{HasRisen};
ghost use Rattle.ag_rules.specs.Plan.{Note_write, Repaired_write, has_row, can_note};
ghost use Rattle.ag_durable.specs.Coming.{Performs};

use crate::durable::Durable;
use crate::fault::DurableFault;
use crate::progress::{Came, after_step};
use ag_outside::disk::Disk;
use ag_suspect::SuspectFault;

/// A page's number has 16 bits, and a kind 8.
fn row_fits(page: u16, kind: u8)
    ensures { (page < 2 ^ 16) × (kind < 2 ^ 8) }
{
    let _ = (page, kind);
}

/// Whether the disk took a row.
fn taken<T: Drop>(changed: Result<T, SuspectFault>) -> Result<(), DurableFault>
    ensures refused { OnErr changed (IsErr result) }
    ensures fault { IsErrOf result DurableFault.DiskFault → IsErrOf changed SuspectFault.DiskFault }
{
    match changed {
        Ok(_) => Ok(()),
        Err(SuspectFault::DiskFault) => Err(DurableFault::DiskFault),
        Err(_) => Err(DurableFault::NoMemory),
    }
}

impl<D: Disk> Durable<D> {
    /// Notes a page with a kind: its row counts one more and is no longer repaired, or it gets a row.
    pub fn note(&mut self, page: u16, kind: u8) -> Result<(), DurableFault>
        requires underway { self.old.progress.came ≡ Came.Underway }
        requires page { 1 ≤ page }
        requires can { can_note page self.old.suspects ≡ true }
        ensures performs { OnOk result (Performs D.reads self.old (Note_write page kind ∷ []) self.new) }
        ensures appends { self.new.appends ≡ self.old.appends }
        ensures later { OnOk result (D.faults self.old.disk.disk ≤ D.faults self.new.disk.disk) }
        ensures fault { IsErrOf result DurableFault.DiskFault → HasRisen (D.faults self.old.disk.disk) (D.faults self.new.disk.disk) }
    {
        row_fits(page, kind);
        let went = taken(self.suspects.note(&mut self.disk, page, kind));
        after_step(&mut self.progress, went, self.disk.why(), 1)
    }

    /// Marks a page's row as repaired.
    pub fn mark(&mut self, page: u16) -> Result<(), DurableFault>
        requires underway { self.old.progress.came ≡ Came.Underway }
        requires had { has_row page self.old.suspects ≡ true }
        ensures performs { OnOk result (Performs D.reads self.old (Repaired_write page ∷ []) self.new) }
        ensures appends { self.new.appends ≡ self.old.appends }
        ensures later { OnOk result (D.faults self.old.disk.disk ≤ D.faults self.new.disk.disk) }
        ensures fault { IsErrOf result DurableFault.DiskFault → HasRisen (D.faults self.old.disk.disk) (D.faults self.new.disk.disk) }
    {
        let went = taken(self.suspects.mark(&mut self.disk, page));
        after_step(&mut self.progress, went, self.disk.why(), 1)
    }
}
