//! A store with 16 pages and its calls. Each call is behind a function without clauses: it tests what the call requires, and answers
//! what it gave, or None where the call may not be made.
ghost use Rattle.std.specs.Prelude.{◌≡◌, true};

use ag_kept::{KeptFault, Reach};
use ag_model::answer::Cell;
use ag_model::event::Suffix;
use ag_model::value::{PageValue, Row};
use ag_outside::mem_disk::MemDisk;
use ag_store::{ReadFault, Store};
use std::alloc::Global;
use std::marker::Model;

/// A store that has 16 pages, unless a fault has come.
#[derive(Drop)]
pub struct Held {
    store: Store<MemDisk>,
}

impl Model for Held {
    ghost use Rattle.std.specs.Prelude.{◌≡◌, true};
    ghost use Rattle.ag_store.specs.Views.{StoreView};

    ghost Value = { StoreView };

    ghost view = { λ h. h.store };

    ghost invariant = { λ h. h.store.sound ≡ true → h.store.pages ≡ 16 };
}

/// How far the stripes of a store were redone, where its log ends, and its redo start.
#[derive(Clone, Copy, Debug)]
pub struct Marks {
    pub least: u64,
    pub most: u64,
    pub end: u64,
    pub redo: u64,
}

impl Held {
    /// This store.
    pub fn new(store: Store<MemDisk>) -> Held
        requires { store.sound ≡ true → store.pages ≡ 16 }
    {
        Held { store }
    }

    /// Whether the replica is up, and no fault has come.
    pub fn is_up(&self) -> bool
        ensures sound { result ≡ true → self.now.sound ≡ true }
        ensures up { result ≡ true → self.now.kept.loaded ≡ true }
    {
        self.store.is_sound() && self.store.is_loaded()
    }

    /// Whether no fault has come.
    pub fn is_sound(&self) -> bool {
        self.store.is_sound()
    }

    /// Redoes the log.
    pub fn redo(&mut self) -> Option<Result<u64, KeptFault>> {
        if !self.is_up() {
            return None;
        }
        match self.store.redo() {
            Ok(lsn) => Some(Ok(lsn)),
            Err(e) => Some(Err(e)),
        }
    }

    /// Redoes the next block on a stripe.
    pub fn apply_next(&mut self, stripe: u8) -> Option<Result<u64, KeptFault>> {
        if !self.is_up() || stripe >= 16 {
            return None;
        }
        match self.store.apply_next(stripe) {
            Ok(lsn) => Some(Ok(lsn)),
            Err(e) => Some(Err(e)),
        }
    }

    /// Flushes the pages.
    pub fn flush(&mut self) -> Option<Result<u64, KeptFault>> {
        if !self.is_up() {
            return None;
        }
        match self.store.flush() {
            Ok(lsn) => Some(Ok(lsn)),
            Err(e) => Some(Err(e)),
        }
    }

    /// The row of key 5 at a snapshot.
    pub fn row(&mut self, snapshot: u64) -> Option<Result<Row, ReadFault>> {
        if !self.is_up() || snapshot > self.store.applied(5) {
            return None;
        }
        match self.store.row_at(5, snapshot) {
            Ok(row) => Some(Ok(row)),
            Err(e) => Some(Err(e)),
        }
    }

    /// The value of page 21.
    pub fn value(&mut self) -> Option<Result<PageValue, KeptFault>> {
        if !self.is_up() {
            return None;
        }
        match self.store.value_of(21) {
            Ok(value) => Some(Ok(value)),
            Err(e) => Some(Err(e)),
        }
    }

    /// The cells of page 21 on the disk.
    pub fn cells(&mut self) -> Option<Result<[Cell; 16], KeptFault>> {
        if !self.store.is_sound() {
            return None;
        }
        match self.store.cells_of(21) {
            Ok(cells) => Some(Ok(cells)),
            Err(e) => Some(Err(e)),
        }
    }

    /// How far its stripes were redone, where its log ends, and its redo start.
    pub fn marks(&self) -> Option<Marks> {
        if !self.is_up() {
            return None;
        }
        let mut most = 0;
        for stripe in 0..16 {
            most = most.max(self.store.applied(stripe));
        }
        Some(Marks {
            least: self.store.least_applied(),
            most,
            end: self.store.log().end(),
            redo: self.store.redo_start(),
        })
    }

    /// Memory is lost.
    pub fn fall(&mut self) {
        self.store.fall();
    }

    /// The incarnation on the disk of a replica that is down.
    pub fn incarnation(&mut self) -> Option<Result<u64, KeptFault>> {
        if !self.store.is_sound() || self.store.is_loaded() {
            return None;
        }
        match self.store.incarnation() {
            Ok(number) => Some(Ok(number)),
            Err(e) => Some(Err(e)),
        }
    }

    /// Starts a replica that is down.
    pub fn start(&mut self, alloc: Global, suffix: &Suffix) -> Option<Result<Reach, KeptFault>> {
        if !self.store.is_sound() || self.store.is_loaded() {
            return None;
        }
        match self.store.incarnation() {
            Ok(u64::MAX) => None,
            Ok(_) => match self.store.start(alloc, suffix) {
                Ok(reach) => Some(Ok(reach)),
                Err(e) => Some(Err(e)),
            },
            Err(e) => Some(Err(e)),
        }
    }

    /// The disk below.
    pub fn into_disk(self) -> MemDisk {
        let Held { store } = self;
        store.into_disk()
    }
}
