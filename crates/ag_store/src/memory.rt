//! What memory has of a replica that is up.
use ag_logstore::LogStore;
use ag_pages::Pages;
use std::marker::Model;

/// The log of a replica that is up, its pages, and the redo start in its master, an LSN.
#[derive(Drop)]
pub(crate) struct Memory {
    pub(crate) log: LogStore,
    pub(crate) pages: Pages,
    pub(crate) redo: u64,
}

impl Model for Memory {
    ghost use Rattle.ag_store.specs.Views.{MemoryView};

    ghost Value = { MemoryView };

    ghost view = { λ m. record { log = m.log; pages = m.pages; redo = m.redo } };
}
