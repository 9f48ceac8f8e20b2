//! A replica on a disk, with its log in memory or without. Its invariants are what the calls require, and its methods have no
//! clauses but where it is made.
ghost use Rattle.std.specs.Prelude.{◌≡◌, ◌≤◌, ℕ, replicate, IsTrue};
ghost use Rattle.ag_outside.specs.Disks.{or_zeros};
ghost use Rattle.ag_logstore.specs.Stored.{log_end};

use crate::blocks::puts;
use ag_kept::{KeptFault, Reach, append, open, read_master, save_redo_start, start_on};
use ag_logstore::{LogStore, block_sectors_of, records_size};
use ag_master::Master;
use ag_model::event::Suffix;
use ag_model::message::Block;
use ag_model::value::NoMemory;
use ag_outside::disk::Disk;
use ag_outside::scripted::Scripted;
use std::alloc::Global;
use std::marker::Model;

/// A replica whose memory has its log.
#[derive(Drop)]
pub struct Up<D: Disk> {
    disk: Scripted<D>,
    store: LogStore,
}

impl<D: Disk> Model for Up<D> {
    ghost use Rattle.std.specs.Prelude.{◌≤◌};
    ghost use Rattle.ag_logstore.specs.Stored.{log_end};
    ghost use Rattle.ag_kept.specs.Standing.{IsAtHome, IsMemory};

    ghost Value = { Unit {0} };

    ghost view = { λ _. tt };

    ghost invariant = { λ s. (log_end ≤ D.size s.disk.disk) × IsAtHome D.keeps D.reads s.disk × IsMemory D.keeps D.reads D.may_hold s.disk s.store };
}

/// One whose memory was lost.
#[derive(Drop)]
pub struct Down<D: Disk> {
    disk: Scripted<D>,
}

impl<D: Disk> Model for Down<D> {
    ghost use Rattle.std.specs.Prelude.{◌≤◌};
    ghost use Rattle.ag_logstore.specs.Stored.{log_end};
    ghost use Rattle.ag_kept.specs.Standing.{IsAtHome};

    ghost Value = { Unit {0} };

    ghost view = { λ _. tt };

    ghost invariant = { λ s. (log_end ≤ D.size s.disk.disk) × IsAtHome D.keeps D.reads s.disk };
}

/// A replica after a call that gave no fault.
#[derive(Drop)]
pub enum Replica<D: Disk> {
    Up(Up<D>),
    Down(Down<D>),
}

impl<D: Disk + Drop> Up<D> {
    /// Opens a replica of this number with so many pages on a disk of zeros.
    pub fn opened(alloc: Global, disk: D, pages: u16, number: u8) -> Result<Up<D>, KeptFault>
        requires room { log_end ≤ D.size disk }
        requires keeps { IsTrue (D.keeps disk) }
        requires zeros { (at : ℕ) → or_zeros (D.reads disk at) ≡ replicate 512 0 }
    {
        let mut disk = Scripted::new(alloc, disk);
        let store = open(alloc, &mut disk, pages, number)?;
        Ok(Up { disk, store })
    }

    /// Where the log ends.
    pub fn end(&self) -> u64 {
        self.store.end()
    }

    /// Hardens so many Puts, from 1 to 196 and as many as have room, and tells how far that came.
    pub fn harden(
        self,
        alloc: Global,
        count: u64,
        suffix: &Suffix,
    ) -> Result<(Reach, Replica<D>), KeptFault> {
        let Up {
            mut disk,
            mut store,
        } = self;
        if count < 1 || count > 196 {
            return Err(KeptFault::NoMemory);
        }
        let records = puts(alloc, count)?;
        let need = block_sectors_of(records_size(records.as_slice())?);
        let first = store.end().checked_add(1).ok_or(NoMemory)?;
        if need > u64::from(store.free()) {
            return Err(KeptFault::NoMemory);
        }
        let block = Block {
            first,
            term: 1,
            records,
        };
        match append(&mut store, &mut disk, &block, suffix) {
            Ok(Reach::End) => Ok((Reach::End, Replica::Up(Up { disk, store }))),
            Ok(reach) => Ok((reach, Replica::Down(Down { disk }))),
            Err(e) => Err(e),
        }
    }

    /// Memory is lost, as in a crash.
    pub fn fallen(self) -> Down<D> {
        let Up { disk, .. } = self;
        Down { disk }
    }
}

impl<D: Disk + Drop> Down<D> {
    /// The master.
    pub fn master(self) -> Result<(Master, Down<D>), KeptFault> {
        let Down { mut disk } = self;
        let master = read_master(&mut disk)?;
        Ok((master, Down { disk }))
    }

    /// Saves the master with another redo start.
    pub fn with_redo_start(self, redo: u64) -> Result<Down<D>, KeptFault> {
        let Down { mut disk } = self;
        save_redo_start(&mut disk, redo)?;
        Ok(Down { disk })
    }

    /// Starts, and tells how far that came, with the incarnation before.
    pub fn started(
        self,
        alloc: Global,
        suffix: &Suffix,
    ) -> Result<(Reach, u64, Replica<D>), KeptFault> {
        let Down { mut disk } = self;
        let incarnation = read_master(&mut disk)?.incarnation;
        if incarnation == u64::MAX {
            return Err(KeptFault::NoMemory);
        }
        match start_on(alloc, &mut disk, suffix)? {
            (reach, Some(store)) => Ok((reach, incarnation, Replica::Up(Up { disk, store }))),
            (reach, None) => Ok((reach, incarnation, Replica::Down(Down { disk }))),
        }
    }
}
