//! Blocks on a disk, behind functions without clauses. What an append requires of its disk is proved here.
ghost use Rattle.std.specs.Prelude.{◌≡◌, ◌≤◌, ℕ, IsTrue, OnOk, IsErrOf, true, false};
ghost use Rattle.ag_record.specs.Spelling.{ArePayload};
ghost use Rattle.ag_outside.specs.MemDisks.{mem_reads};
ghost use Rattle.ag_outside.specs.Shown.{reads_of};
ghost use Rattle.ag_logstore.specs.Stored.{log_end, IsLogSector, incarnation_at};
ghost use Rattle.ag_logstore.specs.Stores.{IsReady};

use crate::blocks::{opening, put_and_commit, puts};
use ag_logstore::{LogFault, LogStore, load};
use ag_model::message::Block;
use ag_model::record::RecordList;
use ag_model::value::NoMemory;
use ag_outside::disk::Disk;
use ag_outside::mem_disk::MemDisk;
use ag_outside::order::Arm;
use ag_outside::scripted::Scripted;
use std::alloc::Global;

/// A disk of zeros with an order, over one that fails at the calls of these numbers.
fn fresh_disk(alloc: Global, failing: Vec<u64>, order: Arm) -> Scripted<MemDisk>
    ensures { (at : ℕ) → incarnation_at (reads_of mem_reads result) at ≡ 0 }
{
    let below = MemDisk::new(alloc, failing, false);
    let mut disk = Scripted::new(alloc, below);
    disk.arm(order);
    disk
}

/// Appends records as the next block.
fn append<D: Disk>(store: &mut LogStore, disk: &mut D, records: RecordList) -> Result<u64, LogFault>
    requires place { log_end ≤ D.size disk.old }
    requires payload { ArePayload records }
    requires ready { store.old.is_closed ≡ false → IsReady (D.keeps disk.old) (D.reads disk.old) (D.may_hold disk.old) store.old }
    ensures ready { OnOk result (IsReady (D.keeps disk.new) (D.reads disk.new) (D.may_hold disk.new) store.new) }
    ensures size { D.size disk.new ≡ D.size disk.old }
    ensures closes { IsErrOf result LogFault.DiskFault → store.new.is_closed ≡ true }
{
    let first = store.end().checked_add(1).ok_or(NoMemory)?;
    let block = Block {
        first,
        term: 1,
        records,
    };
    Ok(store.append_harden(disk, &block)?)
}

/// Loads a fresh disk, and appends the opening block and another one. After a fault of the disk it appends once more, and answers
/// what that gave.
fn two_blocks<D: Disk>(
    alloc: Global,
    disk: &mut D,
    records: RecordList,
) -> Result<(u64, Option<LogFault>), LogFault>
    requires place { log_end ≤ D.size disk.old }
    requires fresh { IsTrue (D.keeps disk.old) → (at : ℕ) → IsLogSector at → incarnation_at (D.reads disk.old) at ≡ 0 }
    requires payload { ArePayload records }
{
    let mut store = load(alloc, disk, 0, 1)?;
    append(&mut store, disk, opening(alloc)?)?;
    match append(&mut store, disk, records) {
        Err(LogFault::DiskFault) => {
            let again = append(&mut store, disk, opening(alloc)?);
            Ok((0, again.err()))
        }
        Ok(end) => Ok((end, None)),
        Err(e) => Err(e),
    }
}

/// A disk with two blocks, and what the second one gave: its end, or the fault of the next one where its own was one of the disk. It
/// has so many Puts, or the Put of key 5 and its Commit.
pub fn written(
    alloc: Global,
    failing: Vec<u64>,
    order: Arm,
    count: u64,
) -> (Result<(u64, Option<LogFault>), LogFault>, Scripted<MemDisk>) {
    let mut disk = fresh_disk(alloc, failing, order);
    let records = if count >= 1 && count <= 196 {
        puts(alloc, count)
    } else {
        put_and_commit(alloc)
    };
    let result = match records {
        Ok(records) => two_blocks(alloc, &mut disk, records),
        Err(_) => Err(LogFault::NoMemory),
    };
    (result, disk)
}

/// What is loaded from a disk without an order: where the log ends, its records, and the free sectors.
pub fn loaded(alloc: Global, disk: &mut Scripted<MemDisk>) -> Result<(u64, usize, u32), LogFault> {
    disk.arm(Arm::Free);
    let store = load(alloc, disk, 0, 1)?;
    Ok((store.end(), store.log().records().len(), store.free()))
}

/// The same once the store is cut at 0.
pub fn cut(alloc: Global, disk: &mut Scripted<MemDisk>) -> Result<(u64, usize, u32), LogFault> {
    disk.arm(Arm::Free);
    let mut store = load(alloc, disk, 0, 1)?;
    store.cut(0, 2);
    Ok((store.end(), store.log().records().len(), store.free()))
}
