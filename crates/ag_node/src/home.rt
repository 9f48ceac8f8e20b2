//! What a node keeps on its disk, and where the node stands.
ghost use Rattle.std.specs.Prelude.{◌≡◌, ◌-◌, ◌+◌, ◌≤◌, ◌<◌, ◌^◌, ℕ, [], true, false, length, get_or, replicate, take, Some, IsTrue, IfOk, IfErr, IfSome, OnOk, OnErr, IsErrOf};
ghost use Rattle.ag_model.specs.Blocks.{end_of_block, after_to, with_block};
ghost use Rattle.ag_model.specs.Proper.{IsProper};
ghost use Rattle.ag_model.specs.Rows.{page_of, stripe_of};
ghost use Rattle.ag_model.specs.Starts.{last_term};
ghost use Rattle.ag_model.specs.Sizes.{block_sectors, records_size, free_sectors};
ghost use Rattle.ag_record.specs.Spelling.{HaveSpelling, ArePayload};
ghost use Rattle.ag_rules.specs.Replica.{least};
ghost use Rattle.ag_outside.specs.Counts.{HasRisen};
ghost use Rattle.ag_logstore.specs.Stored.{log_end};
ghost use Rattle.ag_kept.specs.Reaching.{how_far};
ghost use Rattle.ag_node.specs.Homes.{opening_home, hardened_home, started_home, lost_home, but_faults, down_home, stands};

use crate::fault::NodeFault;
use ag_kept::Reach;
use ag_logstore::HardenedLog;
use ag_model::event::Suffix;
use ag_model::message::Block;
use ag_model::record::{Record, RecordList};
use ag_model::value::NoMemory;
use ag_outside::disk::Disk;
use ag_store::Store;
use std::alloc::Global;
use std::marker::Model;

mod pages;

/// What a node keeps: the log, the master and the images of the pages on its disk, with the pages in memory; and whether the
/// node leads or follows. It is up while memory has the log. After a fault nothing is known of what it keeps.
#[derive(Drop)]
pub(crate) struct Home<D: Disk> {
    /// Whether it is primary, unless a fault came.
    leads: bool,
    /// Whether blocks of its primary are hardened here, unless a fault came.
    follows: bool,
    /// How many data pages there are.
    pages: u16,
    store: Store<D>,
}

impl<D: Disk> Model for Home<D> {
    ghost use Rattle.std.specs.Prelude.{◌≡◌, true};
    ghost use Rattle.ag_node.specs.Homes.{Home, home_of};

    ghost Value = { Home };

    ghost view = { λ h. home_of h.leads h.follows h.pages h.store };

    ghost invariant = { λ h. h.store.sound ≡ true → h.store.pages ≡ h.pages };
}

impl<D: Disk> Home<D> {
    /// What a node keeps as its group opens, for so many pages and the replica of this number. The disk comes back where
    /// that fails.
    pub(crate) fn opening(
        alloc: Global,
        disk: D,
        pages: u16,
        replica: u8,
        leads: bool,
    ) -> Result<Home<D>, (NodeFault, D)>
        requires room { log_end ≤ D.size disk }
        requires keeps { IsTrue (D.keeps disk) }
        requires zeros { (at : ℕ) → D.reads disk at ≡ Some (replicate 512 0) }
        requires low { 16 ≤ pages }
        requires high { pages ≤ 2048 }
        ensures home { IfOk result (λ home. home ≡ opening_home pages leads home.faults) }
        ensures fault { IfErr result (λ x. x.0 ≡ NodeFault.DiskFault → HasRisen (D.faults disk) (D.faults x.1)) }
    {
        match Store::create(alloc, disk, pages, replica) {
            Ok(store) => Ok(Home {
                leads,
                follows: !leads,
                pages,
                store,
            }),
            Err((fault, disk)) => Err((NodeFault::from(fault), disk)),
        }
    }

    /// The disk.
    pub(crate) fn into_disk(self) -> D
        ensures faults { D.faults result ≡ self.faults }
    {
        let Home { store, .. } = self;
        store.into_disk()
    }

    /// Whether the node is up.
    pub(crate) fn is_up(&self) -> bool
        ensures { result ≡ self.now.activity.up }
    {
        self.store.is_sound() && self.store.is_loaded()
    }

    /// Whether it is primary.
    pub(crate) fn leads(&self) -> bool
        ensures { result ≡ self.now.activity.leads }
    {
        self.store.is_sound() && self.leads
    }

    /// Whether blocks of its primary are hardened here.
    pub(crate) fn follows(&self) -> bool
        ensures { result ≡ self.now.activity.follows }
    {
        self.store.is_sound() && self.follows
    }

    /// The log, while the node is up.
    fn log(&self) -> &HardenedLog
        requires up { self.now.activity.up ≡ true }
        ensures { result.now ≡ self.now.log }
    {
        self.store.log()
    }

    /// The last LSN.
    pub(crate) fn end(&self) -> u64
        requires up { self.now.activity.up ≡ true }
        ensures { result ≡ length self.now.log.records }
    {
        self.log().end()
    }

    /// The records; the one at LSN n is at n - 1.
    pub(crate) fn records(&self) -> &[Record]
        requires up { self.now.activity.up ≡ true }
        ensures { result.now ≡ self.now.log.records }
    {
        self.log().records()
    }

    /// The term of the last Term record up to an LSN, or 0.
    pub(crate) fn term_at(&self, last: u64) -> u64
        requires up { self.now.activity.up ≡ true }
        ensures { result ≡ last_term (take last self.now.log.records) }
    {
        self.log().term_at(last)
    }

    /// The LSN at which the block ends that starts at this one.
    pub(crate) fn block_from(&self, first: u64) -> Option<u64>
        requires up { self.now.activity.up ≡ true }
        ensures end { result ≡ end_of_block 0 first self.now.log.ends }
        ensures bounds { IfSome result (λ last. (1 ≤ first) × (first ≤ last) × (last ≤ length self.now.log.records)) }
        ensures small { IfSome result (λ last. records_size (after_to (first - 1) last self.now.log.records) ≤ 15488) }
    {
        self.log().block_from(first)
    }

    /// The records from one LSN to another.
    pub(crate) fn copy_block(
        &self,
        alloc: Global,
        first: u64,
        last: u64,
    ) -> Result<RecordList, NoMemory>
        requires up { self.now.activity.up ≡ true }
        requires from { 1 ≤ first }
        requires order { first ≤ last + 1 }
        requires within { last ≤ length self.now.log.records }
        ensures is { IfOk result (λ copy. copy ≡ after_to (first - 1) last self.now.log.records) }
        ensures fits { IfOk result HaveSpelling }
    {
        let copy = self.log().copy_block(alloc, first, last)?;
        Ok(copy)
    }

    /// The sectors that are left for the log.
    pub(crate) fn free_sectors(&self) -> u64
        requires up { self.now.activity.up ≡ true }
        ensures { result ≡ free_sectors self.now.log }
    {
        self.log().free_sectors()
    }

    /// All is lost but the disk.
    pub(crate) fn fall(&mut self)
        ensures { self.new ≡ down_home self.old }
    {
        self.leads = false;
        self.follows = false;
        self.store.fall();
    }

    /// It leads from now on, or doesn't.
    pub(crate) fn stand(&mut self, leads: bool)
        requires up { self.old.activity.up ≡ true }
        ensures { self.new ≡ stands leads self.old }
    {
        self.leads = leads;
        self.follows = false;
    }

    /// Hardens a block, and tells how far it came. Unless it comes to its end the node is down. The pages wait for their redo.
    pub(crate) fn harden(&mut self, block: &Block, suffix: &Suffix) -> Result<Reach, NodeFault>
        requires up { self.old.activity.up ≡ true }
        requires first { block.now.first ≡ length self.old.log.records + 1 }
        requires payload { ArePayload block.now.records }
        requires room { block_sectors block.now.records ≤ free_sectors self.old.log }
        requires proper { IsProper self.old.pages (with_block self.old.log block.now.records) }
        ensures reach { IfOk result (λ r. r ≡ how_far suffix.now (block_sectors block.now.records) 2) }
        ensures home { IfOk result (λ r. self.new ≡ but_faults (hardened_home self.old block.now.records r) self.new.faults) }
        ensures later { OnOk result (self.old.faults ≤ self.new.faults) }
        ensures lost { OnErr result (self.new ≡ lost_home self.old.pages self.new.faults) }
        ensures fault { IsErrOf result NodeFault.DiskFault → HasRisen self.old.faults self.new.faults }
    {
        match self.store.harden(block, suffix) {
            Ok(Reach::End) => Ok(Reach::End),
            Ok(reach) => {
                self.leads = false;
                self.follows = false;
                Ok(reach)
            }
            Err(fault) => Err(NodeFault::from(fault)),
        }
    }

    /// The incarnation in the master of a node that is down. A node that gave up before answers NoMemory.
    pub(crate) fn incarnation(&mut self) -> Result<u64, NodeFault>
        requires down { self.old.activity.up ≡ false }
        ensures is { IfOk result (λ n. n ≡ self.old.activity.incarnation) }
        ensures home { OnOk result (self.new ≡ but_faults self.old self.new.faults) }
        ensures later { OnOk result (self.old.faults ≤ self.new.faults) }
        ensures lost { OnErr result (self.new ≡ lost_home self.old.pages self.new.faults) }
        ensures fault { IsErrOf result NodeFault.DiskFault → HasRisen self.old.faults self.new.faults }
    {
        if !self.store.is_sound() {
            return Err(NodeFault::NoMemory);
        }
        match self.store.incarnation() {
            Ok(incarnation) => Ok(incarnation),
            Err(fault) => Err(NodeFault::from(fault)),
        }
    }

    /// Starts from the disk, as a node that neither leads nor follows, and tells how far it came. At its end all records after
    /// the redo start are redone. A node that gave up before answers NoMemory.
    pub(crate) fn start(&mut self, alloc: Global, suffix: &Suffix) -> Result<Reach, NodeFault>
        requires down { self.old.activity.up ≡ false }
        requires small { self.old.activity.incarnation + 1 < 2 ^ 64 }
        ensures reach { IfOk result (λ r. r ≡ how_far suffix.now 1 3) }
        ensures home { IfOk result (λ r. self.new ≡ but_faults (started_home self.old r) self.new.faults) }
        ensures lost { OnErr result (self.new ≡ lost_home self.old.pages self.new.faults) }
        ensures fault { IsErrOf result NodeFault.DiskFault → HasRisen self.old.faults self.new.faults }
    {
        if !self.store.is_sound() {
            return Err(NodeFault::NoMemory);
        }
        match self.store.start(alloc, suffix) {
            Ok(reach) => Ok(reach),
            Err(fault) => Err(NodeFault::from(fault)),
        }
    }
}
