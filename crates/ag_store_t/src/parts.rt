//! The pages and the disk of a replica by themselves, without a store.
ghost use Rattle.std.specs.Prelude.{◌≡◌, ◌≤◌, ◌<◌};

use crate::fixture::block;
use ag_kept::{KeptFault, open};
use ag_outside::mem_disk::MemDisk;
use ag_outside::scripted::Scripted;
use ag_pages::Pages;
use ag_store::flush_pages;
use ag_stripe::laws::{have_images, images};
use std::alloc::Global;
use std::marker::Model;

/// Pages over a disk of zeros, each with its value after the first record of a log or after a later one.
#[derive(Drop)]
struct Parts {
    disk: MemDisk,
    pages: Pages,
}

impl Model for Parts {
    ghost use Rattle.ag_outside.specs.MemDisks.{mem_reads};
    ghost use Rattle.ag_pages.specs.Views.{PagesView};
    ghost use Rattle.ag_store_t.specs.Parts.{AreParts};

    ghost Value = { PagesView };

    ghost view = { λ p. p.pages };

    ghost invariant = { λ p. AreParts (mem_reads p.disk) p.pages };
}

impl Parts {
    /// Pages that stand at the first record.
    fn new(alloc: Global) -> Result<Parts, KeptFault> {
        images();
        let disk = MemDisk::new(alloc, Vec::new(alloc), false);
        let pages = Pages::new(alloc, 16, 1)?;
        Ok(Parts { disk, pages })
    }

    /// Redoes the block on a stripe that stands at the first record.
    fn redo(self, alloc: Global, stripe: u8) -> Result<Parts, KeptFault> {
        let Parts {
            mut disk,
            mut pages,
        } = self;
        if stripe >= 16 || pages.applied(stripe) != 1 {
            return Ok(Parts { disk, pages });
        }
        let block = block(alloc)?;
        match pages.redo(&mut disk, stripe, block.records.as_slice()) {
            Ok(()) => Ok(Parts { disk, pages }),
            Err(_) => Err(KeptFault::DiskFault),
        }
    }

    /// Opens a replica on the disk, and flushes the pages. It answers the redo start, and the disk.
    fn flush(self, alloc: Global) -> Result<(u64, MemDisk), KeptFault> {
        have_images();
        let Parts { disk, mut pages } = self;
        let mut disk = Scripted::new(alloc, disk);
        open(alloc, &mut disk, 16, 0)?;
        let redo = flush_pages(&mut disk, &mut pages)?;
        Ok((redo, disk.into_inner()))
    }
}

/// Redoes the block on all stripes, and flushes the pages. It answers the redo start, and the disk.
pub fn flushed(alloc: Global) -> Result<(u64, MemDisk), KeptFault> {
    let mut parts = Parts::new(alloc)?;
    for stripe in 0..16 {
        parts = parts.redo(alloc, stripe)?;
    }
    parts.flush(alloc)
}
