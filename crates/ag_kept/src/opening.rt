//! What a replica writes on a disk of zeros as its group opens.
ghost use Rattle.std.specs.Prelude.{◌≡◌, ◌^◌, ◌≤◌, ◌<◌, [], ◌∷◌, ℕ, true, false, IsTrue, IfOk, OnOk, IsErrOf};
ghost use Rattle.ag_model.specs.declared.record.Record.TheVariants.{Term};
ghost use Rattle.ag_record.specs.Spelling.{ArePayload};
ghost use Rattle.ag_master.specs.Spelling.{HasSpelling};
ghost use Rattle.ag_outside.specs.Counts.{HasRisen};
ghost use Rattle.ag_outside.specs.Calls.{TakesAll};
ghost use Rattle.ag_outside.specs.Disks.{Only};
ghost use Rattle.ag_outside.specs.Shown.{reads_of, holds_of, did_of};
ghost use Rattle.ag_logstore.specs.Stored.{log_end, no_log};
ghost use Rattle.ag_logstore.specs.Stores.{IsReady};
ghost use Rattle.ag_kept.specs.Ending.{IsSettled};
ghost use Rattle.ag_kept.specs.Kept.{master_of, kept_on, opening_kept, SamePages};
ghost use Rattle.ag_kept.specs.Saving.{freed, master_piece};
ghost use Rattle.ag_kept.specs.Standing.{IsAtHome, IsMemory, IsBlank};
ghost use Rattle.ag_kept.specs.Starting.{with_master};

use crate::appending::append;
use crate::fault::KeptFault;
use ag_logstore::{LogFault, LogStore, load};
use ag_master::{Master, MasterFault, save};
use ag_model::event::Suffix;
use ag_model::list::ListOf;
use ag_model::message::Block;
use ag_model::page_set::PageSet;
use ag_model::record::Record;
use ag_model::value::NoMemory;
use ag_outside::disk::Disk;
use ag_outside::order::Arm;
use ag_outside::scripted::Scripted;
use std::alloc::Global;

/// The master at the opening, with so many pages, of the replica of this number.
fn opening_master(pages: u16, replica: u8) -> Master
    ensures is { result ≡ master_of 1 0 1 pages replica }
    ensures fits { HasSpelling result }
{
    let foreign = PageSet::empty();
    let _ = foreign.to_bytes();
    Master {
        format: 1,
        state: 0,
        incarnation: 1,
        term: 1,
        cut: 0,
        undo: 0,
        redo: 1,
        pages,
        replica,
        foreign,
    }
}

/// The block that starts term 1.
fn opening_block(alloc: Global) -> Result<Block, NoMemory>
    ensures is { IfOk result (λ b. b ≡ record { first = 1; term = 1; records = Term 1 ∷ [] }) }
    ensures payload { IfOk result (λ b. ArePayload b.records) }
{
    let mut records = ListOf::new(alloc);
    records.push(Record::Term { term: 1 })?;
    Ok(Block {
        first: 1,
        term: 1,
        records,
    })
}

/// The store of a disk of zeros.
fn load_blank<D: Disk>(alloc: Global, disk: &mut Scripted<D>) -> Result<LogStore, KeptFault>
    requires place { log_end ≤ D.size disk.old.disk }
    requires blank { IsBlank D.keeps D.reads disk.old }
    ensures blank { OnOk result (IsBlank D.keeps D.reads disk.new) }
    ensures same { OnOk result (reads_of D.reads disk.new ≡ reads_of D.reads disk.old) }
    ensures store { IfOk result (λ s. s ≡ record { log = no_log; cut = 0; incarnation = 1; is_closed = false }) }
    ensures ready { IfOk result (IsReady (D.keeps disk.new.disk) (reads_of D.reads disk.new) (holds_of D.keeps D.may_hold disk.new)) }
    ensures later { OnOk result (D.faults disk.old.disk ≤ D.faults disk.new.disk) }
    ensures fault { IsErrOf result KeptFault.DiskFault → HasRisen (D.faults disk.old.disk) (D.faults disk.new.disk) }
    ensures size { D.size disk.new.disk ≡ D.size disk.old.disk }
{
    disk.arm(Arm::Free);
    match load(alloc, disk, 0, 1) {
        Ok(store) => Ok(store),
        Err(LogFault::DiskFault) => Err(KeptFault::DiskFault),
        Err(_) => Err(KeptFault::NoMemory),
    }
}

/// Saves a master outside of any order.
pub(crate) fn save_freely<D: Disk>(disk: &mut Scripted<D>, master: &Master) -> Result<(), KeptFault>
    requires place { log_end ≤ D.size disk.old.disk }
    requires keeps { IsTrue (D.keeps disk.old.disk) }
    requires unsynced { disk.old.unsynced ≡ [] }
    requires fits { HasSpelling master.now }
    ensures image { OnOk result (reads_of D.reads disk.new ≡ with_master (reads_of D.reads disk.old) master.now) }
    ensures settled { OnOk result (IsSettled D.keeps disk.old disk.new) }
    ensures durable { OnOk result (Only (reads_of D.reads disk.new) (holds_of D.keeps D.may_hold disk.new)) }
    ensures calls { OnOk result (TakesAll (did_of D.keeps D.reads D.may_hold D.faults) (freed disk.old) (master_piece master.now ∷ []) disk.new) }
    ensures later { OnOk result (D.faults disk.old.disk ≤ D.faults disk.new.disk) }
    ensures fault { IsErrOf result KeptFault.DiskFault → HasRisen (D.faults disk.old.disk) (D.faults disk.new.disk) }
    ensures size { D.size disk.new.disk ≡ D.size disk.old.disk }
{
    disk.arm(Arm::Free);
    match save(disk, master) {
        Ok(()) => Ok(()),
        Err(MasterFault::DiskFault) => Err(KeptFault::DiskFault),
        Err(MasterFault::NoMemory) => Err(KeptFault::NoMemory),
    }
}

/// Writes the opening block of a store, and then the master.
fn write_opening<D: Disk>(
    disk: &mut Scripted<D>,
    store: &mut LogStore,
    block: &Block,
    master: &Master,
) -> Result<(), KeptFault>
    requires place { log_end ≤ D.size disk.old.disk }
    requires blank { IsBlank D.keeps D.reads disk.old }
    requires store { store.old ≡ record { log = no_log; cut = 0; incarnation = 1; is_closed = false } }
    requires ready { IsReady (D.keeps disk.old.disk) (reads_of D.reads disk.old) (holds_of D.keeps D.may_hold disk.old) store.old }
    requires block { block.now ≡ record { first = 1; term = 1; records = Term 1 ∷ [] } }
    requires payload { ArePayload block.now.records }
    requires master { master.now ≡ master_of 1 0 1 master.now.pages master.now.replica }
    requires fits { HasSpelling master.now }
    ensures home { OnOk result (IsAtHome D.keeps D.reads disk.new) }
    ensures memory { OnOk result (IsMemory D.keeps D.reads D.may_hold disk.new store.new) }
    ensures kept { OnOk result (kept_on (reads_of D.reads disk.new) true ≡ opening_kept master.now.pages master.now.replica) }
    ensures pages { OnOk result (SamePages (reads_of D.reads disk.old) (reads_of D.reads disk.new)) }
    ensures later { OnOk result (D.faults disk.old.disk ≤ D.faults disk.new.disk) }
    ensures fault { IsErrOf result KeptFault.DiskFault → HasRisen (D.faults disk.old.disk) (D.faults disk.new.disk) }
    ensures size { D.size disk.new.disk ≡ D.size disk.old.disk }
{
    match append(store, disk, block, &Suffix::Whole) {
        Ok(_) => save_freely(disk, master),
        Err(e) => Err(e),
    }
}

/// Opens a store on a disk of zeros, for so many pages and the replica of this number: the block that starts term 1 is
/// written and synced, and then the master.
pub fn open<D: Disk>(
    alloc: Global,
    disk: &mut Scripted<D>,
    pages: u16,
    replica: u8,
) -> Result<LogStore, KeptFault>
    requires place { log_end ≤ D.size disk.old.disk }
    requires blank { IsBlank D.keeps D.reads disk.old }
    ensures home { OnOk result (IsAtHome D.keeps D.reads disk.new) }
    ensures memory { IfOk result (IsMemory D.keeps D.reads D.may_hold disk.new) }
    ensures kept { OnOk result (kept_on (reads_of D.reads disk.new) true ≡ opening_kept pages replica) }
    ensures pages { OnOk result (SamePages (reads_of D.reads disk.old) (reads_of D.reads disk.new)) }
    ensures later { OnOk result (D.faults disk.old.disk ≤ D.faults disk.new.disk) }
    ensures fault { IsErrOf result KeptFault.DiskFault → HasRisen (D.faults disk.old.disk) (D.faults disk.new.disk) }
    ensures size { D.size disk.new.disk ≡ D.size disk.old.disk }
{
    let block = match opening_block(alloc) {
        Ok(block) => block,
        Err(NoMemory) => return Err(KeptFault::NoMemory),
    };
    let mut store = match load_blank(alloc, disk) {
        Ok(store) => store,
        Err(e) => return Err(e),
    };
    match write_opening(disk, &mut store, &block, &opening_master(pages, replica)) {
        Ok(()) => Ok(store),
        Err(e) => Err(e),
    }
}
