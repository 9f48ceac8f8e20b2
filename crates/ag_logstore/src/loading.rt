//! Reading the blocks of a disk.
ghost use Rattle.std.specs.Prelude.{◌≡◌, ◌⊎◌, ◌↔◌, ◌+◌, ◌-◌, ◌<◌, ◌≤◌, ◌++◌, [], ◌∷◌, ℕ, length, IsTrue, MatchOption, IfOk, OnOk, OnErr, IsErrOf};
ghost use Rattle.ag_model.specs.Sizes.{block_sectors};
ghost use Rattle.ag_record.specs.Spelling.{records_spelling, ArePayload};
ghost use Rattle.ag_logblock.specs.Block.{HasBlock};
ghost use Rattle.ag_outside.specs.Counts.{HasRisen};
ghost use Rattle.ag_outside.specs.Disks.{or_zeros};
ghost use Rattle.ag_logstore.specs.Stored.{log_start, log_end, Stored, IsStored, AreSectorsOf, sectors_at, named_count};
ghost use Rattle.ag_logstore.specs.LogOf.{IsLogOf};
ghost use Rattle.ag_logstore.specs.ReadOnly.{OnlyReads, FailsReading};

use crate::fault::{LogFault, fault_of};
use crate::hardened::HardenedLog;
use crate::sizes::{block_sectors_of, small_size};
use ag_logblock::{BlockFault, Head, put_together};
use ag_model::record::RecordList;
use ag_outside::disk::{Disk, Found, Sector};
use ag_record::{RecordFault, decode_all};
use std::alloc::Global;

/// The first sector of the log.
const LOG_START: u32 = 33_088;

/// The first sector after it.
const LOG_END: u32 = 295_232;

/// The log of a disk.
pub(crate) fn read_log<D: Disk>(
    alloc: Global,
    disk: &mut D,
    cut: u64,
    incarnation: u64,
) -> Result<HardenedLog, LogFault>
    requires { log_end ≤ D.size disk.old }
    ensures log { IfOk result (λ log. IsTrue (D.keeps disk.old) → IsLogOf (D.reads disk.old) cut incarnation log) }
    ensures stays { OnlyReads D.size D.keeps D.reads D.may_hold D.moment D.left_since D.faults D.did disk.old disk.new }
    ensures only { OnErr result ((result ≡ Err LogFault.DiskFault) ⊎ (result ≡ Err LogFault.NoMemory)) }
    ensures fault { IsErrOf result LogFault.DiskFault → HasRisen (D.faults disk.old) (D.faults disk.new) }
    ensures broken { IsErrOf result LogFault.DiskFault → FailsReading D.did disk.old disk.new }
{
    let mut log = HardenedLog::new(alloc);
    let mut least = 0;
    let mut at = LOG_START;
    'reading: loop {
        let Some((head, mut records)) = read_block(alloc, disk, at)? else {
            return Ok(log);
        };
        if !is_next(&head, log.end(), least, cut, incarnation) {
            return Ok(log);
        }
        at += block_sectors_of(small_size(records.as_slice())) as u32;
        least = head.incarnation;
        log.append(&mut records)?;
    }
}

/// Whether a block with this head may follow the blocks of a log.
fn is_next(head: &Head, end: u64, least: u64, cut: u64, incarnation: u64) -> bool
    ensures { IsTrue result ↔ (head.now.first ≡ end + 1) × (least ≤ head.now.incarnation) × (cut ≤ end → incarnation ≤ head.now.incarnation) }
{
    head.first.checked_sub(1) == Some(end)
        && head.incarnation >= least
        && (end < cut || head.incarnation >= incarnation)
}

/// The block that stands at a sector of the log, if one does.
fn read_block<D: Disk>(
    alloc: Global,
    disk: &mut D,
    at: u32,
) -> Result<Option<(Head, RecordList)>, LogFault>
    requires place { log_end ≤ D.size disk.old }
    ensures block { IfOk result (λ found. IsTrue (D.keeps disk.old)
        → MatchOption found ((b : Stored) → IsStored (D.reads disk.old) at b → ⊥) (λ b. IsStored (D.reads disk.old) at (record { head = b.0; records = b.1 }))) }
    ensures within { IfOk result (λ found. MatchOption found (Unit {0}) (λ b. ArePayload b.1 × (at + block_sectors b.1 ≤ log_end))) }
    ensures stays { OnlyReads D.size D.keeps D.reads D.may_hold D.moment D.left_since D.faults D.did disk.old disk.new }
    ensures only { OnErr result ((result ≡ Err LogFault.DiskFault) ⊎ (result ≡ Err LogFault.NoMemory)) }
    ensures fault { IsErrOf result LogFault.DiskFault → HasRisen (D.faults disk.old) (D.faults disk.new) }
    ensures broken { IsErrOf result LogFault.DiskFault → FailsReading D.did disk.old disk.new }
{
    if at >= LOG_END {
        return Ok(None);
    }
    let mut sectors = Vec::new(alloc);
    read_sectors(disk, at, 1, &mut sectors)?;
    let count = count_of(sectors.as_slice()).min(32).min(LOG_END - at);
    read_sectors(disk, at + 1, count.saturating_sub(1), &mut sectors)?;
    block_of(alloc, sectors.as_slice())
}

/// How many sectors the first one says that the block takes.
fn count_of(sectors: &[Sector]) -> u32
    ensures { result ≡ named_count sectors.now }
{
    match sectors.first() {
        Some(sector) => u32::from(sector[25]),
        None => 0,
    }
}

/// The block that has these sectors, if one does.
fn block_of(alloc: Global, sectors: &[Sector]) -> Result<Option<(Head, RecordList)>, LogFault>
    ensures block { IfOk result (λ found. MatchOption found ((b : Stored) → AreSectorsOf sectors.now b → ⊥) (λ b. AreSectorsOf sectors.now (record { head = b.0; records = b.1 }))) }
    ensures only { OnErr result (result ≡ Err LogFault.NoMemory) }
{
    let mut payload = Vec::new(alloc);
    let head = match put_together(sectors, &mut payload) {
        Ok(head) => head,
        Err(BlockFault::NoBlock { .. }) => return Ok(None),
        Err(BlockFault::NoMemory) => return Err(LogFault::NoMemory),
    };
    match decode_all(alloc, payload.as_slice()) {
        Ok(records) => Ok(Some((head, records))),
        Err(RecordFault::NoMemory) => Err(LogFault::NoMemory),
        Err(_) => Ok(None),
    }
}

/// Appends sectors that stand one after the other, where a lost one counts as zeros.
fn read_sectors<D: Disk>(
    disk: &mut D,
    first: u32,
    count: u32,
    sectors: &mut Vec<Sector>,
) -> Result<(), LogFault>
    requires { first + count ≤ D.size disk.old }
    ensures sectors { OnOk result (IsTrue (D.keeps disk.old) → sectors.new.items ≡ sectors.old.items ++ sectors_at (D.reads disk.old) first count) }
    ensures long { OnOk result (length sectors.new.items ≡ length sectors.old.items + count) }
    ensures stays { OnlyReads D.size D.keeps D.reads D.may_hold D.moment D.left_since D.faults D.did disk.old disk.new }
    ensures only { OnErr result ((result ≡ Err LogFault.DiskFault) ⊎ (result ≡ Err LogFault.NoMemory)) }
    ensures fault { IsErrOf result LogFault.DiskFault → HasRisen (D.faults disk.old) (D.faults disk.new) }
    ensures broken { IsErrOf result LogFault.DiskFault → FailsReading D.did disk.old disk.new }
{
    for k in 0..count {
        let sector = read_sector(disk, first + k)?;
        sectors.push(sector)?;
    }
    Ok(())
}

/// A sector, where a lost one counts as zeros.
fn read_sector<D: Disk>(disk: &mut D, at: u32) -> Result<Sector, LogFault>
    requires { at < D.size disk.old }
    ensures sector { IfOk result (λ sector. IsTrue (D.keeps disk.old) → or_zeros (D.reads disk.old at) ≡ sector) }
    ensures stays { OnlyReads D.size D.keeps D.reads D.may_hold D.moment D.left_since D.faults D.did disk.old disk.new }
    ensures only { OnErr result ((result ≡ Err LogFault.DiskFault) ⊎ (result ≡ Err LogFault.NoMemory)) }
    ensures fault { IsErrOf result LogFault.DiskFault → HasRisen (D.faults disk.old) (D.faults disk.new) }
    ensures broken { IsErrOf result LogFault.DiskFault → FailsReading D.did disk.old disk.new }
{
    let mut sector = [0; 512];
    match disk.read(at, &mut sector) {
        Ok(Found::Bytes) => Ok(sector),
        Ok(Found::Lost) => Ok([0; 512]),
        Err(e) => Err(fault_of(e)),
    }
}
