//! A block more, on a disk and in memory.
ghost use Rattle.std.specs.Prelude.{◌≡◌, ◌⊎◌, ◌+◌, ◌<◌, ◌≤◌, [], ◌∷◌, ℕ, length, IsTrue, IfOk, OnOk, OnErr, IsErrOf};
ghost use Rattle.ag_model.specs.Blocks.{with_block};
ghost use Rattle.ag_model.specs.Sizes.{block_sectors, free_sectors};
ghost use Rattle.ag_record.specs.Spelling.{records_spelling, ArePayload};
ghost use Rattle.ag_logblock.specs.Block.{HasBlock};
ghost use Rattle.ag_outside.specs.Counts.{HasRisen};
ghost use Rattle.ag_outside.specs.Disks.{writes, put_all, WroteSo, Only};
ghost use Rattle.ag_outside.specs.Moments.{LeavesOnly};
ghost use Rattle.ag_outside.specs.Calls.{TakesAll, FailsOnTheWay};
ghost use Rattle.ag_logstore.specs.Stored.{log_end, sectors_of};
ghost use Rattle.ag_logstore.specs.Stores.{sector_after, stored_by, sectors_by, piece_by};

use crate::fault::LogFault;
use crate::hardened::HardenedLog;
use crate::sizes::copy_of;
use crate::writing::write_synced;
use ag_logblock::{Head, cut_up};
use ag_model::message::Block;
use ag_model::record::Record;
use ag_outside::disk::{Disk, Sector};
use std::alloc::Global;

/// The first sector after the log.
const LOG_END: u32 = 295_232;

/// Writes a block after those of the log, syncs, and appends it in memory. Where this fails the log stays as it was.
pub(crate) fn harden<D: Disk>(
    log: &mut HardenedLog,
    disk: &mut D,
    incarnation: u64,
    block: &Block,
) -> Result<u64, LogFault>
    requires place { log_end ≤ D.size disk.old }
    requires payload { ArePayload block.now.records }
    requires least { 1 ≤ incarnation }
    requires room { block_sectors block.now.records ≤ free_sectors log.old }
    ensures ok { OnOk result (log.new ≡ with_block log.old block.now.records) }
    ensures end { IfOk result (λ end. end ≡ length log.old.records + length block.now.records) }
    ensures err { OnErr result (log.new ≡ log.old) }
    ensures block { HasBlock (stored_by incarnation block.now).head (records_spelling block.now.records) }
    ensures written { OnOk result (IsTrue (D.keeps disk.old) → D.reads disk.new ≡ put_all (D.reads disk.old) (writes (sector_after log.old) (sectors_by incarnation block.now))) }
    ensures durable { OnOk result (IsTrue (D.keeps disk.old) → Only (D.reads disk.new) (D.may_hold disk.new)) }
    ensures any_moment { LeavesOnly D.moment D.left_since disk.old disk.new (λ image. (at : ℕ)
        → D.may_hold disk.old at (image at) ⊎ WroteSo (writes (sector_after log.old) (sectors_by incarnation block.now)) at (image at)) }
    ensures fault { IsErrOf result LogFault.DiskFault → HasRisen (D.faults disk.old) (D.faults disk.new) }
    ensures only { OnErr result ((result ≡ Err LogFault.DiskFault) ⊎ (result ≡ Err LogFault.NoMemory)) }
    ensures faults { D.faults disk.old ≤ D.faults disk.new }
    ensures size { D.size disk.new ≡ D.size disk.old }
    ensures keeps { D.keeps disk.new ≡ D.keeps disk.old }
    ensures calls { OnOk result (TakesAll D.did disk.old (piece_by log.old incarnation block.now ∷ []) disk.new) }
    ensures broken { IsErrOf result LogFault.DiskFault → FailsOnTheWay D.did disk.old (piece_by log.old incarnation block.now ∷ []) disk.new }
{
    let sectors = spell(
        log.alloc(),
        block.term,
        incarnation,
        block.first,
        block.records.as_slice(),
    )?;
    let mut copy = copy_of(&block.records)?;
    let first = LOG_END - log.free_sectors() as u32;
    let before = log.end();
    log.append(&mut copy)?;
    match write_synced(disk, first, sectors.as_slice()) {
        Ok(()) => Ok(log.end()),
        Err(e) => {
            log.cut(before);
            Err(e)
        }
    }
}

/// The sectors of a block.
fn spell(
    alloc: Global,
    term: u64,
    incarnation: u64,
    first: u64,
    records: &[Record],
) -> Result<Vec<Sector>, LogFault>
    requires payload { ArePayload records.now }
    requires least { 1 ≤ incarnation }
    ensures sectors { IfOk result (λ sectors. sectors.items ≡ sectors_of (record { head = record { term = term; incarnation = incarnation; first = first }; records = records.now })) }
    ensures block { HasBlock (record { term = term; incarnation = incarnation; first = first }) (records_spelling records.now) }
    ensures only { OnErr result (result ≡ Err LogFault.NoMemory) }
{
    let mut payload = Vec::new(alloc);
    ag_record::encode_all(records, &mut payload)?;
    let head = Head {
        term,
        incarnation,
        first,
    };
    let mut sectors = Vec::new(alloc);
    cut_up(&head, payload.as_slice(), &mut sectors)?;
    Ok(sectors)
}
