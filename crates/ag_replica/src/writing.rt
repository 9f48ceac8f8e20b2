//! Writes on the disk of a replica, each with a sync of its own.
ghost use Rattle.std.specs.Prelude.{◌≡◌, ◌≤◌, ◌+◌, ◌∷◌, [], true, length, ◌⊎◌, OnOk, IsErrOf};
ghost use Rattle.ag_outside.specs.Counts.{HasRisen};
ghost use Rattle.ag_model.specs.Sizes.{block_sectors, free_sectors};
ghost use Rattle.ag_record.specs.Spelling.{ArePayload};
ghost use Rattle.ag_rules.specs.Plan.{Block_write, Master_write, Note_write, Repaired_write, can_note, has_row};
ghost use Rattle.ag_writes.specs.Writes.{master_of};
ghost use Rattle.ag_keeping.specs.Cutting.{CanCut};
ghost use Rattle.ag_replica.specs.Reading.{IsUpSo};
ghost use Rattle.ag_replica.specs.Writing.{CanWrite, Wrote};

use crate::fault::ReplicaFault;
use crate::up::Up;
use ag_model::message::Block;
use ag_outside::disk::Disk;
use ag_writes::MasterWords;

/// Notes a bad page with a kind.
pub fn note<D: Disk>(up: &mut Up<D>, page: u16, kind: u8) -> Result<(), ReplicaFault>
    requires up { IsUpSo D.reads up.old }
    requires page { 1 ≤ page }
    requires can { can_note page up.old.durable.suspects ≡ true }
    ensures wrote { OnOk result (Wrote D.reads up.old (Note_write page kind ∷ []) up.new) }
    ensures later { OnOk result (D.faults up.old.durable.disk.disk ≤ D.faults up.new.durable.disk.disk) }
    ensures fault { IsErrOf result ReplicaFault.DiskFault → HasRisen (D.faults up.old.durable.disk.disk) (D.faults up.new.durable.disk.disk) }
{
    Ok(up.durable.note(page, kind)?)
}

/// Marks a page's row as repaired.
pub fn mark<D: Disk>(up: &mut Up<D>, page: u16) -> Result<(), ReplicaFault>
    requires up { IsUpSo D.reads up.old }
    requires had { has_row page up.old.durable.suspects ≡ true }
    ensures wrote { OnOk result (Wrote D.reads up.old (Repaired_write page ∷ []) up.new) }
    ensures later { OnOk result (D.faults up.old.durable.disk.disk ≤ D.faults up.new.durable.disk.disk) }
    ensures fault { IsErrOf result ReplicaFault.DiskFault → HasRisen (D.faults up.old.durable.disk.disk) (D.faults up.new.durable.disk.disk) }
{
    Ok(up.durable.mark(page)?)
}

/// Appends a block to the log.
pub fn append<D: Disk>(up: &mut Up<D>, block: &Block) -> Result<(), ReplicaFault>
    requires up { IsUpSo D.reads up.old }
    requires can { CanWrite D.reads up.old (Block_write block.now.records) }
    requires appends { up.old.durable.appends ≡ true }
    requires first { block.now.first ≡ length up.old.durable.log.log.records + 1 }
    requires payload { ArePayload block.now.records }
    requires room { block_sectors block.now.records ≤ free_sectors up.old.durable.log.log }
    ensures wrote { OnOk result (Wrote D.reads up.old (Block_write block.now.records ∷ []) up.new) }
    ensures appends { up.new.durable.appends ≡ up.old.durable.appends }
    ensures later { OnOk result (D.faults up.old.durable.disk.disk ≤ D.faults up.new.durable.disk.disk) }
    ensures fault { IsErrOf result ReplicaFault.DiskFault → HasRisen (D.faults up.old.durable.disk.disk) (D.faults up.new.durable.disk.disk) }
{
    Ok(up.durable.append(block)?)
}

/// Writes what the master is to say, and cuts the log at an LSN: at its own end, or, with a higher incarnation, at a block's end.
pub fn save<D: Disk>(up: &mut Up<D>, words: &MasterWords, log_end: u64) -> Result<(), ReplicaFault>
    requires up { IsUpSo D.reads up.old }
    requires can { CanWrite D.reads up.old (Master_write (master_of words.now) log_end) }
    requires state { (words.now.state ≡ 0) ⊎ (words.now.state ≡ 3) ⊎ (words.now.state ≡ 4) }
    requires cut { CanCut up.old.durable.master up.old.durable.log.log (master_of words.now) log_end }
    ensures wrote { OnOk result (Wrote D.reads up.old (Master_write (master_of words.now) log_end ∷ []) up.new) }
    ensures later { OnOk result (D.faults up.old.durable.disk.disk ≤ D.faults up.new.durable.disk.disk) }
    ensures fault { IsErrOf result ReplicaFault.DiskFault → HasRisen (D.faults up.old.durable.disk.disk) (D.faults up.new.durable.disk.disk) }
{
    Ok(up.durable.save(words, log_end)?)
}
