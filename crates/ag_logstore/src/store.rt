//! The log of a replica, in memory and on a disk.
ghost use Rattle.std.specs.Prelude.{◌≡◌, ◌⊎◌, ◌↔◌, ◌+◌, ◌-◌, ◌<◌, ◌≤◌, [], ◌∷◌, ℕ, true, false, length, Contains, IsTrue, IfOk, OnOk, OnErr, IsErrOf};
ghost use Rattle.ag_model.specs.Blocks.{with_block, cut_at};
ghost use Rattle.ag_model.specs.Sizes.{block_sectors, free_sectors};
ghost use Rattle.ag_record.specs.Spelling.{ArePayload};
ghost use Rattle.ag_outside.specs.Counts.{HasRisen};
ghost use Rattle.ag_outside.specs.Disks.{writes, put_all, MayAdd, Only, IsImage};
ghost use Rattle.ag_outside.specs.Moments.{LeavesOnly};
ghost use Rattle.ag_outside.specs.Calls.{TakesAll, FailsOnTheWay};
ghost use Rattle.ag_logstore.specs.Stored.{log_end};
ghost use Rattle.ag_logstore.specs.LogOf.{IsLogOf};
ghost use Rattle.ag_logstore.specs.Stores.{StoreView, sector_after, sectors_by, piece_by, IsReady, IsBeforeOrAfter};

use crate::appending::harden;
use crate::fault::{LogFault, fault_of};
use crate::hardened::HardenedLog;
use crate::loading::read_log;
use crate::sizes::{block_sectors_of, small_size};
use ag_model::message::Block;
use ag_outside::disk::Disk;
use std::alloc::Global;
use std::marker::Model;

/// A log in memory that is kept on a disk.
#[derive(Debug, Drop)]
pub struct LogStore {
    log: HardenedLog,
    /// The LSN above which no block of an earlier incarnation counts.
    cut: u64,
    incarnation: u64,
    /// Whether the disk has failed.
    is_closed: bool,
}

impl Model for LogStore {
    ghost use Rattle.ag_logstore.specs.Stores.{StoreView};

    ghost Value = { StoreView };

    ghost view = { λ s. record { log = s.log; cut = s.cut; incarnation = s.incarnation; is_closed = s.is_closed } };
}

/// Syncs, and reads the log of a disk: blocks one after the other from the first sector of the log, and above the cut, an
/// LSN, only those that have at least the given incarnation.
pub fn load<D: Disk>(
    alloc: Global,
    disk: &mut D,
    cut: u64,
    incarnation: u64,
) -> Result<LogStore, LogFault>
    requires { log_end ≤ D.size disk.old }
    ensures log { IfOk result (λ s. IsTrue (D.keeps disk.old) → IsLogOf (D.reads disk.old) cut incarnation s.log) }
    ensures fields { IfOk result (λ s. (s.cut ≡ cut) × (s.incarnation ≡ incarnation) × (s.is_closed ≡ false)) }

    // After Ok a crash leaves what was read.
    ensures reads { OnOk result (IsTrue (D.keeps disk.old) → D.reads disk.new ≡ D.reads disk.old) }
    ensures durable { OnOk result (Only (D.reads disk.old) (D.may_hold disk.new)) }

    // A crash at any moment leaves what it might have left before.
    ensures crash { MayAdd [] (D.may_hold disk.old) (D.may_hold disk.new) }
    ensures any_moment { LeavesOnly D.moment D.left_since disk.old disk.new (IsImage (D.may_hold disk.old)) }

    ensures only { OnErr result ((result ≡ Err LogFault.DiskFault) ⊎ (result ≡ Err LogFault.NoMemory)) }
    ensures fault { IsErrOf result LogFault.DiskFault → HasRisen (D.faults disk.old) (D.faults disk.new) }
    ensures faults { D.faults disk.old ≤ D.faults disk.new }
    ensures size { D.size disk.new ≡ D.size disk.old }
    ensures keeps { D.keeps disk.new ≡ D.keeps disk.old }

    // The disk is synced and then read, or fails on the way.
    ensures calls { OnOk result (TakesAll D.did disk.old [] disk.new) }
    ensures broken { IsErrOf result LogFault.DiskFault → FailsOnTheWay D.did disk.old [] disk.new }
{
    match disk.sync() {
        Ok(()) => {
            let log = read_log(alloc, disk, cut, incarnation)?;
            Ok(LogStore {
                log,
                cut,
                incarnation,
                is_closed: false,
            })
        }
        Err(e) => Err(fault_of(e)),
    }
}

impl LogStore {
    /// The last LSN.
    pub fn end(&self) -> u64
        ensures { result ≡ length self.now.log.records }
    {
        self.log.end()
    }

    /// The log in memory.
    pub fn log(&self) -> &HardenedLog
        ensures { result.now ≡ self.now.log }
    {
        &self.log
    }

    /// The sectors that are free.
    pub fn free(&self) -> u32
        ensures { result ≡ free_sectors self.now.log }
    {
        self.log.free_sectors() as u32
    }

    /// Cuts the log at a block's end, or at 0, for the incarnation that the master has by now. The disk isn't touched: its
    /// blocks above the cut don't count any more.
    pub fn cut(&mut self, end: u64, incarnation: u64)
        requires block { (end ≡ 0) ⊎ Contains self.old.log.ends end }
        requires higher { self.old.incarnation < incarnation }
        ensures { self.new ≡ record { log = cut_at end self.old.log; cut = end; incarnation = incarnation; is_closed = self.old.is_closed } }
    {
        self.log.cut(end);
        self.cut = end;
        self.incarnation = incarnation;
    }

    /// Appends a block on the disk and in memory. Its sectors are written in one call, and synced. The answer is the LSN
    /// at which it ends.
    pub fn append_harden<D: Disk>(&mut self, disk: &mut D, block: &Block) -> Result<u64, LogFault>
        requires place { log_end ≤ D.size disk.old }
        requires first { block.now.first ≡ length self.old.log.records + 1 }
        requires payload { ArePayload block.now.records }
        requires ready { self.old.is_closed ≡ false → IsReady (D.keeps disk.old) (D.reads disk.old) (D.may_hold disk.old) self.old }

        ensures ok { OnOk result (self.new ≡ record self.old { log = with_block self.old.log block.now.records }) }
        ensures end { IfOk result (λ end. end ≡ length self.old.log.records + length block.now.records) }

        // After Ok the disk has the log with the block, and a crash leaves what is read.
        ensures written { OnOk result (IsTrue (D.keeps disk.old) → D.reads disk.new ≡ put_all (D.reads disk.old) (writes (sector_after self.old.log) (sectors_by self.old.incarnation block.now))) }
        ensures log { OnOk result (IsTrue (D.keeps disk.old) → IsLogOf (D.reads disk.new) self.old.cut self.old.incarnation (with_block self.old.log block.now.records)) }
        ensures durable { OnOk result (IsTrue (D.keeps disk.old) → Only (D.reads disk.new) (D.may_hold disk.new)) }
        ensures ready { OnOk result (IsReady (D.keeps disk.new) (D.reads disk.new) (D.may_hold disk.new) self.new) }

        // A crash at any moment leaves the log from before or the one with the block, and all other sectors as before.
        ensures any_moment { self.old.is_closed ≡ false → LeavesOnly D.moment D.left_since disk.old disk.new (IsBeforeOrAfter (D.reads disk.old) self.old block.now.records) }

        // When each fault comes, and what it leaves.
        ensures full { (result ≡ Err (LogFault.Full (block_sectors block.now.records) (free_sectors self.old.log))) ↔ (free_sectors self.old.log < block_sectors block.now.records) }
        ensures full_as { (need free : ℕ) → result ≡ Err (LogFault.Full need free) → (need ≡ block_sectors block.now.records) × (free ≡ free_sectors self.old.log) }
        ensures closed { (result ≡ Err LogFault.Closed) ↔ (block_sectors block.now.records ≤ free_sectors self.old.log) × (self.old.is_closed ≡ true) }
        ensures fault { IsErrOf result LogFault.DiskFault → HasRisen (D.faults disk.old) (D.faults disk.new) }
        ensures closes { IsErrOf result LogFault.DiskFault → self.new ≡ record self.old { is_closed = true } }
        ensures stays { OnErr result ((result ≡ Err LogFault.DiskFault) ⊎ (self.new ≡ self.old)) }
        ensures faults { D.faults disk.old ≤ D.faults disk.new }
        ensures size { D.size disk.new ≡ D.size disk.old }
        ensures keeps { D.keeps disk.new ≡ D.keeps disk.old }

        // The disk takes the sectors and syncs them, or fails on the way.
        ensures calls { OnOk result (TakesAll D.did disk.old (piece_by self.old.log self.old.incarnation block.now ∷ []) disk.new) }
        ensures broken { IsErrOf result LogFault.DiskFault → FailsOnTheWay D.did disk.old (piece_by self.old.log self.old.incarnation block.now ∷ []) disk.new }
    {
        let need = block_sectors_of(small_size(block.records.as_slice())) as u32;
        let free = self.free();
        if free < need {
            return Err(LogFault::Full { need, free });
        }
        if self.is_closed {
            return Err(LogFault::Closed);
        }
        match harden(&mut self.log, disk, self.incarnation, block) {
            Ok(end) => Ok(end),
            Err(e) => {
                self.is_closed = matches!(e, LogFault::DiskFault);
                Err(e)
            }
        }
    }
}
