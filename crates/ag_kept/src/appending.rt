//! A block that is appended on a disk with an order.
ghost use Rattle.std.specs.Prelude.{◌≡◌, ◌⊎◌, ◌+◌, ◌^◌, ◌≤◌, ◌<◌, [], true, false, length, IsTrue, IfOk, OnOk, IsErrOf};
ghost use Rattle.ag_model.specs.Blocks.{with_block};
ghost use Rattle.ag_model.specs.Sizes.{block_sectors, free_sectors};
ghost use Rattle.ag_record.specs.Spelling.{ArePayload};
ghost use Rattle.ag_outside.specs.Counts.{HasRisen};
ghost use Rattle.ag_outside.specs.Shown.{reads_of, holds_of};
ghost use Rattle.ag_logstore.specs.Stored.{log_end};
ghost use Rattle.ag_logstore.specs.Stores.{IsReady};
ghost use Rattle.ag_kept.specs.Reaching.{how_far};
ghost use Rattle.ag_kept.specs.Ending.{IsSettled, reach_of};
ghost use Rattle.ag_kept.specs.Standing.{LeavesLog, reached_log};

use crate::fault::KeptFault;
use crate::reach::{Reach, order_of};
use ag_logstore::{LogFault, LogStore, block_sectors_of, records_size};
use ag_model::event::Suffix;
use ag_model::message::Block;
use ag_outside::disk::Disk;
use ag_outside::order::Why;
use ag_outside::scripted::Scripted;

/// How far a write came that failed, of so many sectors.
pub(crate) fn reached(why: Why, sectors: u64) -> Result<Reach, KeptFault>
    ensures { result ≡ reach_of why sectors }
{
    match why {
        Why::Stopped { kept, .. } => Ok(Reach::Stop {
            whole: u64::from(kept) == sectors,
        }),
        Why::Device => Ok(Reach::Fault),
        Why::Nothing | Why::Inner => Err(KeptFault::DiskFault),
    }
}

/// The numbers of a block's head have 64 bits.
fn head_fits(term: u64, first: u64)
    ensures { (term < 2 ^ 64) × (first < 2 ^ 64) }
{
    let _ = (term, first);
}

/// Appends a block to a store, and tells how far it came.
pub fn append<D: Disk>(
    store: &mut LogStore,
    disk: &mut Scripted<D>,
    block: &Block,
    suffix: &Suffix,
) -> Result<Reach, KeptFault>
    requires place { log_end ≤ D.size disk.old.disk }
    requires keeps { IsTrue (D.keeps disk.old.disk) }
    requires unsynced { disk.old.unsynced ≡ [] }
    requires open { store.old.is_closed ≡ false }
    requires ready { IsReady (D.keeps disk.old.disk) (reads_of D.reads disk.old) (holds_of D.keeps D.may_hold disk.old) store.old }
    requires first { block.now.first ≡ length store.old.log.records + 1 }
    requires payload { ArePayload block.now.records }
    requires room { block_sectors block.now.records ≤ free_sectors store.old.log }

    ensures reach { IfOk result (λ r. r ≡ how_far suffix.now (block_sectors block.now.records) 2) }
    ensures log { IfOk result (λ r. LeavesLog (reads_of D.reads disk.old) store.old.cut store.old.incarnation (reached_log store.old block.now.records r) (reads_of D.reads disk.new)) }
    ensures settled { OnOk result (IsSettled D.keeps disk.old disk.new) }

    // At the end the store can go on.
    ensures store { result ≡ Ok Reach.End → store.new ≡ record store.old { log = with_block store.old.log block.now.records } }
    ensures ready { result ≡ Ok Reach.End → IsReady (D.keeps disk.new.disk) (reads_of D.reads disk.new) (holds_of D.keeps D.may_hold disk.new) store.new }

    ensures later { OnOk result (D.faults disk.old.disk ≤ D.faults disk.new.disk) }
    ensures fault { IsErrOf result KeptFault.DiskFault → HasRisen (D.faults disk.old.disk) (D.faults disk.new.disk) }
    ensures size { D.size disk.new.disk ≡ D.size disk.old.disk }
{
    head_fits(block.term, block.first);
    let sectors = block_sectors_of(records_size(block.records.as_slice())?);
    disk.arm(order_of(suffix));
    match store.append_harden(disk, block) {
        Ok(_) => Ok(Reach::End),
        Err(LogFault::DiskFault) => reached(disk.why(), sectors),
        Err(_) => Err(KeptFault::NoMemory),
    }
}
