//! Plays steps on a store, and says what each gave as text.
use crate::held::Held;
use crate::step::Step;
use crate::text::{page_text, row_text};
use crate::{fixture, parts};
use ag_model::event::Suffix;
use ag_outside::disk::{Disk, DiskError};
use ag_outside::mem_disk::MemDisk;
use std::alloc::{AllocError, Global};

/// Opens a store whose disk fails at this call.
fn open(alloc: Global, held: &mut Option<Held>, call: u64) -> Result<String, AllocError> {
    match fixture::open(alloc, Vec::from_slice(alloc, &[call])?) {
        Ok(store) => {
            *held = Some(store);
            format!(in alloc; "up")
        }
        Err(e) => format!(in alloc; "{e:?}"),
    }
}

/// Opens a store whose disk fails at this call, and hardens a block.
fn harden(
    alloc: Global,
    held: &mut Option<Held>,
    call: u64,
    suffix: Suffix,
) -> Result<String, AllocError> {
    match fixture::hardened(alloc, Vec::from_slice(alloc, &[call])?, suffix) {
        Ok((store, reach)) => {
            let up = store.is_up();
            *held = Some(store);
            format!(in alloc; "{reach:?}, up {up}")
        }
        Err(e) => format!(in alloc; "{e:?}"),
    }
}

/// A byte of a sector on a disk, or None where the disk has no such sector.
fn byte_at(disk: &mut MemDisk, at: u32, byte: usize) -> Result<Option<u8>, DiskError> {
    let mut sector = [0; 512];
    if at >= disk.sectors() || byte >= 512 {
        return Ok(None);
    }
    disk.read(at, &mut sector)?;
    Ok(Some(sector[byte]))
}

/// How many sectors a disk has, the mark of the first sector of page 21, and the last byte of the redo start in the master.
fn on_disk(alloc: Global, mut disk: MemDisk) -> Result<String, AllocError> {
    let sectors = disk.sectors();
    let mark = byte_at(&mut disk, 400, 511);
    let redo = byte_at(&mut disk, 0, 51);
    format!(in alloc; "{sectors} sectors, mark {mark:?}, redo start {redo:?}")
}

/// Flushes pages and a disk by themselves, and says where redo starts then, and what is on the disk.
fn flush_parts(alloc: Global) -> Result<String, AllocError> {
    match parts::flushed(alloc) {
        Ok((redo, disk)) => {
            let text = on_disk(alloc, disk)?;
            format!(in alloc; "{redo}, {text}")
        }
        Err(e) => format!(in alloc; "{e:?}"),
    }
}

/// Plays a step on a store.
fn on_store(alloc: Global, held: &mut Held, step: Step) -> Result<String, AllocError> {
    match step {
        Step::Redo => format!(in alloc; "{:?}", held.redo()),
        Step::Apply { stripe } => format!(in alloc; "{:?}", held.apply_next(stripe)),
        Step::Row { snapshot } => row_text(alloc, held.row(snapshot)),
        Step::Value => page_text(alloc, held.value()),
        Step::Cells => format!(in alloc; "{:?}", held.cells()),
        Step::Flush => format!(in alloc; "{:?}", held.flush()),
        Step::Marks => format!(in alloc; "{:?}", held.marks()),
        Step::Sound => format!(in alloc; "{}", held.is_sound()),
        Step::Start { suffix } => {
            let incarnation = held.incarnation();
            let reach = held.start(alloc, &suffix);
            format!(in alloc; "{incarnation:?} {reach:?}")
        }
        Step::Fall => {
            held.fall();
            format!(in alloc; "down")
        }
        _ => format!(in alloc; "no step"),
    }
}

/// Plays a step.
pub fn play(alloc: Global, held: &mut Option<Held>, step: Step) -> Result<String, AllocError> {
    match step {
        Step::Open { call } => open(alloc, held, call),
        Step::Harden { call, suffix } => harden(alloc, held, call, suffix),
        Step::Parts => flush_parts(alloc),
        Step::Disk => match held.take() {
            Some(store) => on_disk(alloc, store.into_disk()),
            None => format!(in alloc; "none"),
        },
        _ => match held {
            Some(store) => on_store(alloc, store, step),
            None => format!(in alloc; "none"),
        },
    }
}
