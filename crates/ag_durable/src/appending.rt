//! A block more.
ghost use Rattle.std.specs.Prelude.{◌≡◌, ◌+◌, ◌≤◌, ◌<◌, ◌^◌, ◌∷◌, [], true, length, OnOk, OnErr, IsErr, IsErrOf};
ghost use Rattle.ag_model.specs.Sizes.{block_sectors, free_sectors};
ghost use Rattle.ag_record.specs.Spelling.{ArePayload};
ghost use Rattle.ag_outside.specs.Counts.{HasRisen};
ghost use Rattle.ag_rules.specs.Plan.{Block_write};
ghost use Rattle.ag_durable.specs.Coming.{Performs};

use crate::durable::Durable;
use crate::fault::DurableFault;
use crate::progress::{Came, after_step};
use ag_logstore::{LogFault, block_sectors_of, records_size};
use ag_model::message::Block;
use ag_outside::disk::Disk;

/// The numbers of a block's head have 64 bits.
fn head_fits(term: u64, first: u64)
    ensures { (term < 2 ^ 64) × (first < 2 ^ 64) }
{
    let _ = (term, first);
}

/// Whether the log took a block.
fn taken(appended: Result<u64, LogFault>) -> Result<(), DurableFault>
    ensures refused { OnErr appended (IsErr result) }
    ensures fault { IsErrOf result DurableFault.DiskFault → IsErrOf appended LogFault.DiskFault }
{
    match appended {
        Ok(_) => Ok(()),
        Err(LogFault::DiskFault) => Err(DurableFault::DiskFault),
        Err(_) => Err(DurableFault::NoMemory),
    }
}

impl<D: Disk> Durable<D> {
    /// Appends a block to the log, on the disk and in memory.
    pub fn append(&mut self, block: &Block) -> Result<(), DurableFault>
        requires underway { self.old.progress.came ≡ Came.Underway }
        requires appends { self.old.appends ≡ true }
        requires first { block.now.first ≡ length self.old.log.log.records + 1 }
        requires payload { ArePayload block.now.records }
        requires room { block_sectors block.now.records ≤ free_sectors self.old.log.log }
        ensures performs { OnOk result (Performs D.reads self.old (Block_write block.now.records ∷ []) self.new) }
        ensures appends { self.new.appends ≡ self.old.appends }
        ensures later { OnOk result (D.faults self.old.disk.disk ≤ D.faults self.new.disk.disk) }
        ensures fault { IsErrOf result DurableFault.DiskFault → HasRisen (D.faults self.old.disk.disk) (D.faults self.new.disk.disk) }
    {
        head_fits(block.term, block.first);
        let sectors = block_sectors_of(records_size(block.records.as_slice())?) as u32;
        let went = taken(self.log.append_harden(&mut self.disk, block));
        after_step(&mut self.progress, went, self.disk.why(), sectors)
    }
}
