//! Masters as words and as text, and one on a disk.
use crate::sets::{said_set, set_of};
use crate::words::{next_number, next_small, next_word};
use ag_master::{Loaded, Master, MasterFault, load, save};
use ag_outside::disk::{Disk, DiskError};
use ag_outside::mem_disk::MemDisk;
use ag_outside::scripted::Scripted;
use std::alloc::{AllocError, Global};
use std::str::SplitWhitespace;

/// A disk on which nothing was written.
pub fn new_disk(alloc: Global) -> Scripted<MemDisk> {
    Scripted::new(alloc, MemDisk::new(alloc, Vec::new(alloc), true))
}

/// A master as text.
pub fn said_master(alloc: Global, m: &Master) -> Result<String, AllocError> {
    let foreign = said_set(alloc, &m.foreign)?;
    format!(in alloc;
        "format {} state {} incarnation {} term {} cut {} undo {} redo {} pages {} replica {} foreign {foreign}",
        m.format, m.state, m.incarnation, m.term, m.cut, m.undo, m.redo, m.pages, m.replica
    )
}

/// The master of the words: state, incarnation, term, cut, undo LSN, redo start, pages, replica and foreign pages.
fn master_of(words: &mut SplitWhitespace<'_>) -> Master {
    Master {
        format: 1,
        state: next_small(words),
        incarnation: next_number(words),
        term: next_number(words),
        cut: next_number(words),
        undo: next_number(words),
        redo: next_number(words),
        pages: next_word(words).parse::<u16>().unwrap_or(0),
        replica: next_small(words),
        foreign: set_of(next_word(words)),
    }
}

/// Saves a master, if it is in a state that is kept.
fn saved<D: Disk>(disk: &mut D, m: &Master) -> Option<Result<(), MasterFault>> {
    if disk.sectors() == 0 || m.format != 1 || (m.state != 0 && m.state != 3 && m.state != 4) {
        return None;
    }
    Some(save(disk, m))
}

/// Loads a master.
fn loaded<D: Disk>(disk: &mut D) -> Option<Result<Loaded, MasterFault>> {
    if disk.sectors() == 0 {
        return None;
    }
    Some(load(disk))
}

/// What a load gave.
fn said_loaded(
    alloc: Global,
    loaded: &Option<Result<Loaded, MasterFault>>,
) -> Result<String, AllocError> {
    match loaded {
        Some(Ok(Loaded::Is(m))) => said_master(alloc, m),
        Some(Ok(Loaded::Fresh)) => format!(in alloc; "Fresh"),
        Some(Ok(Loaded::Other)) => format!(in alloc; "Other"),
        Some(Err(fault)) => format!(in alloc; "{fault:?}"),
        None => format!(in alloc; "no sector"),
    }
}

/// Fills the sector of the master with a byte.
fn poked<D: Disk>(disk: &mut Scripted<D>, byte: u8) -> Option<Result<(), DiskError>> {
    if disk.sectors() == 0 {
        return None;
    }
    Some(disk.poke(0, &[byte; 512]))
}

/// What a step on the disk gave, if it is one.
pub fn step(
    alloc: Global,
    disk: &mut Scripted<MemDisk>,
    name: &str,
    text: &str,
) -> Result<Option<String>, AllocError> {
    let mut words = text.split_whitespace();
    let told = match name {
        "load" => said_loaded(alloc, &loaded(disk))?,
        "save" => format!(in alloc; "{:?}", saved(disk, &master_of(&mut words)))?,
        "poke" => format!(in alloc; "{:?}", poked(disk, next_small(&mut words)))?,
        _ => return Ok(None),
    };
    Ok(Some(told))
}
