//! What a replica keeps.
ghost use Rattle.std.specs.Prelude.{◌≡◌, ◌+◌, ◌-◌, ◌^◌, ◌≤◌, ◌<◌, ℕ, [], Some, true, false, length, get_or, replicate, IsTrue, IfOk, IfErr, OnOk, OnErr, IsErrOf};
ghost use Rattle.ag_model.specs.Blocks.{with_block};
ghost use Rattle.ag_model.specs.Proper.{IsProper};
ghost use Rattle.ag_model.specs.Sizes.{block_sectors, free_sectors};
ghost use Rattle.ag_record.specs.Spelling.{ArePayload};
ghost use Rattle.ag_outside.specs.Counts.{HasRisen};
ghost use Rattle.ag_logstore.specs.Stored.{log_end};
ghost use Rattle.ag_pagestore.specs.Places.{page_cells};
ghost use Rattle.ag_rules.specs.Replica.{least};
ghost use Rattle.ag_kept.specs.Reaching.{how_far};
ghost use Rattle.ag_store.specs.Standing.{AreImages, IsDataPage};
ghost use Rattle.ag_store.specs.Views.{opening_store, fallen_store, hardened_store, started_store};

use crate::memory::Memory;
use crate::starting::start_whole;
use ag_kept::{KeptFault, Reach, append, open, read_master};
use ag_logstore::HardenedLog;
use ag_model::event::Suffix;
use ag_model::message::Block;
use ag_outside::disk::Disk;
use ag_outside::scripted::Scripted;
use ag_pages::Pages;
use ag_stripe::laws::images;
use std::alloc::Global;
use std::marker::Model;

/// What a replica keeps: its log, its master and the images of its pages on its disk; and in memory, while it is up, its log
/// and its pages.
#[derive(Drop)]
pub struct Store<D: Disk> {
    pub(crate) disk: Scripted<D>,
    /// How many data pages there are.
    pub(crate) pages: u16,
    /// What memory has, while the replica is up.
    pub(crate) memory: Option<Memory>,
    /// Whether no fault has come: after one nothing is known of the disk.
    pub(crate) is_sound: bool,
}

impl<D: Disk> Model for Store<D> {
    ghost use Rattle.ag_outside.specs.Shown.{reads_of};
    ghost use Rattle.ag_store.specs.Views.{StoreView, store_on};
    ghost use Rattle.ag_store.specs.Standing.{IsStore};

    ghost Value = { StoreView };

    ghost view = { λ s. store_on (reads_of D.reads s.disk) s.pages s.memory s.is_sound (D.faults s.disk.disk) };

    ghost invariant = { λ s. IsStore D.size D.keeps D.reads D.may_hold s.disk s.pages s.memory s.is_sound };
}

impl<D: Disk> Store<D> {
    /// Opens a store on a disk of zeros, for so many data pages and the replica of this number: the block that starts term 1
    /// is written and synced, and then the master. The disk comes back where that fails.
    pub fn create(
        alloc: Global,
        disk: D,
        pages: u16,
        replica: u8,
    ) -> Result<Store<D>, (KeptFault, D)>
        requires room { log_end ≤ D.size disk }
        requires keeps { IsTrue (D.keeps disk) }
        requires zeros { (at : ℕ) → D.reads disk at ≡ Some (replicate 512 0) }
        requires low { 16 ≤ pages }
        requires high { pages ≤ 2048 }
        ensures store { IfOk result (λ s. s ≡ opening_store pages replica s.faults) }
        ensures later { IfOk result (λ s. D.faults disk ≤ s.faults) }
        ensures fault { IfErr result (λ x. x.0 ≡ KeptFault.DiskFault → HasRisen (D.faults disk) (D.faults x.1)) }
    {
        images();
        let mut disk = Scripted::new(alloc, disk);
        match open(alloc, &mut disk, pages, replica) {
            Ok(log) => match Pages::new(alloc, pages, 1) {
                Ok(clean) => Ok(Store {
                    disk,
                    pages,
                    memory: Some(Memory {
                        log,
                        pages: clean,
                        redo: 1,
                    }),
                    is_sound: true,
                }),
                Err(_) => Err((KeptFault::NoMemory, disk.into_inner())),
            },
            Err(e) => Err((e, disk.into_inner())),
        }
    }

    /// The disk below, as it is. Unless a fault has come, the image of each data page on it is sound: it is the page's value at an LSN
    /// of the log, above which no record up to the redo start touches the page.
    pub fn into_disk(self) -> D
        ensures faults { D.faults result ≡ self.faults }
        ensures images { self.sound ≡ true → AreImages self.pages (D.reads result) self.kept self.applied self.dirty }
        ensures cells { self.sound ≡ true → (page : ℕ) → IsDataPage self.pages page → page_cells (D.reads result) page ≡ get_or self.cells (page - 16) [] }
    {
        self.disk.into_inner()
    }

    /// Whether no fault has come.
    pub fn is_sound(&self) -> bool
        ensures { result ≡ self.now.sound }
    {
        self.is_sound
    }

    /// Whether memory has the log and the pages.
    pub fn is_loaded(&self) -> bool
        ensures { result ≡ self.now.kept.loaded }
    {
        self.memory.is_some()
    }

    /// The log, where it is in memory.
    pub fn log(&self) -> &HardenedLog
        requires sound { self.now.sound ≡ true }
        requires up { self.now.kept.loaded ≡ true }
        ensures { result.now ≡ self.now.kept.log }
    {
        match &self.memory {
            Some(memory) => memory.log.log(),
            None => unreachable!(),
        }
    }

    /// The redo start in the master, an LSN, where memory has it.
    pub fn redo_start(&self) -> u64
        requires sound { self.now.sound ≡ true }
        requires up { self.now.kept.loaded ≡ true }
        ensures { result ≡ self.now.kept.redo }
    {
        match &self.memory {
            Some(memory) => memory.redo,
            None => unreachable!(),
        }
    }

    /// The LSN to which a stripe was redone, where the replica is up.
    pub fn applied(&self, stripe: u8) -> u64
        requires sound { self.now.sound ≡ true }
        requires up { self.now.kept.loaded ≡ true }
        requires stripe { stripe < 16 }
        ensures { result ≡ get_or self.now.applied stripe 0 }
    {
        match &self.memory {
            Some(memory) => memory.pages.applied(stripe),
            None => unreachable!(),
        }
    }

    /// The least LSN to which a stripe was redone, where the replica is up.
    pub fn least_applied(&self) -> u64
        requires sound { self.now.sound ≡ true }
        requires up { self.now.kept.loaded ≡ true }
        ensures { result ≡ least self.now.applied }
    {
        match &self.memory {
            Some(memory) => memory.pages.least_applied(),
            None => unreachable!(),
        }
    }

    /// The incarnation in the master of a replica that is down. It is read outside of any order.
    pub fn incarnation(&mut self) -> Result<u64, KeptFault>
        requires sound { self.old.sound ≡ true }
        requires down { self.old.kept.loaded ≡ false }
        ensures is { IfOk result (λ n. n ≡ self.old.kept.incarnation) }
        ensures store { OnOk result (self.new ≡ record self.old { faults = self.new.faults }) }
        ensures later { OnOk result (self.old.faults ≤ self.new.faults) }
        ensures err { OnErr result (self.new.sound ≡ false) }
        ensures fault { IsErrOf result KeptFault.DiskFault → HasRisen self.old.faults self.new.faults }
    {
        match read_master(&mut self.disk) {
            Ok(master) => Ok(master.incarnation),
            Err(e) => {
                self.is_sound = false;
                Err(e)
            }
        }
    }

    /// Memory is lost, as in a crash.
    pub fn fall(&mut self)
        ensures { self.new ≡ fallen_store self.old }
    {
        self.memory = None;
    }

    /// Hardens a block, and tells how far it came. Unless it comes to its end, memory is lost. The pages wait for their redo.
    pub fn harden(&mut self, block: &Block, suffix: &Suffix) -> Result<Reach, KeptFault>
        requires sound { self.old.sound ≡ true }
        requires up { self.old.kept.loaded ≡ true }
        requires first { block.now.first ≡ length self.old.kept.log.records + 1 }
        requires payload { ArePayload block.now.records }
        requires room { block_sectors block.now.records ≤ free_sectors self.old.kept.log }
        requires proper { IsProper self.old.pages (with_block self.old.kept.log block.now.records) }
        ensures reach { IfOk result (λ r. r ≡ how_far suffix.now (block_sectors block.now.records) 2) }
        ensures store { IfOk result (λ r. self.new ≡ record (hardened_store self.old block.now.records r) { faults = self.new.faults }) }
        ensures later { OnOk result (self.old.faults ≤ self.new.faults) }
        ensures err { OnErr result (self.new.sound ≡ false) }
        ensures fault { IsErrOf result KeptFault.DiskFault → HasRisen self.old.faults self.new.faults }
    {
        match self.memory.take() {
            None => unreachable!(),
            Some(mut memory) => match append(&mut memory.log, &mut self.disk, block, suffix) {
                Ok(Reach::End) => {
                    self.memory = Some(memory);
                    Ok(Reach::End)
                }
                Ok(Reach::Stop { whole }) => Ok(Reach::Stop { whole }),
                Ok(Reach::Fault) => Ok(Reach::Fault),
                Err(e) => {
                    self.is_sound = false;
                    Err(e)
                }
            },
        }
    }

    /// Starts from the disk: it is synced and read, the master is saved with the next incarnation and the cut at the log's
    /// end, and all records after the redo start are redone. It tells how far it came.
    pub fn start(&mut self, alloc: Global, suffix: &Suffix) -> Result<Reach, KeptFault>
        requires sound { self.old.sound ≡ true }
        requires down { self.old.kept.loaded ≡ false }
        requires small { self.old.kept.incarnation + 1 < 2 ^ 64 }
        ensures reach { IfOk result (λ r. r ≡ how_far suffix.now 1 3) }
        ensures store { IfOk result (λ r. self.new ≡ record (started_store self.old r) { faults = self.new.faults }) }
        ensures later { OnOk result (self.old.faults ≤ self.new.faults) }
        ensures err { OnErr result (self.new.sound ≡ false) }
        ensures fault { IsErrOf result KeptFault.DiskFault → HasRisen self.old.faults self.new.faults }
    {
        match start_whole(alloc, &mut self.disk, self.pages, suffix) {
            Ok((reach, memory)) => {
                self.memory = memory;
                Ok(reach)
            }
            Err(e) => {
                self.is_sound = false;
                Err(e)
            }
        }
    }
}
