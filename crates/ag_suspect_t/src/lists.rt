//! Steps of a suspect list and its disk.
use crate::texts::list_text;
use crate::words::{byte, hex, number, numbers, page, place, word};
use ag_outside::disk::{Disk, DiskError, Found};
use ag_outside::mem_disk::MemDisk;
use ag_outside::order::Arm;
use ag_outside::scripted::Scripted;
use ag_suspect::{SuspectFault, Suspects, laws, load};
use std::alloc::{AllocError, Global};

/// A list, and the disk that it is kept on.
#[derive(Drop)]
pub struct Held {
    disk: Scripted<MemDisk>,
    list: Suspects,
}

impl Held {
    /// A blank disk, and the list without a row.
    pub fn new(alloc: Global) -> Held {
        Held {
            disk: Scripted::new(alloc, MemDisk::new(alloc, Vec::new(alloc), true)),
            list: Suspects::new(alloc),
        }
    }
}

/// Notes a page, unless it is page 0 or the disk is too small.
fn note(held: &mut Held, page: u16, kind: u8) -> Option<Result<(), SuspectFault>> {
    if page == 0 || held.disk.sectors() < 64 {
        return None;
    }
    Some(held.list.note(&mut held.disk, page, kind))
}

/// Marks a page's row, unless the disk is too small.
fn mark(held: &mut Held, page: u16) -> Option<Result<bool, SuspectFault>> {
    if held.disk.sectors() < 64 {
        return None;
    }
    Some(held.list.mark(&mut held.disk, page))
}

/// Notes pages one after the other, from one to another, and tells how many were noted.
fn note_all(held: &mut Held, first: u16, last: u16, kind: u8) -> u32 {
    let mut count = 0;
    for page in first..last {
        if let Some(Ok(())) = note(held, page, kind)
            && count < u32::MAX
        {
            count += 1;
        }
    }
    count
}

/// Reads the list of the disk in place of the one in memory.
fn reload(alloc: Global, held: &mut Held) -> Option<SuspectFault> {
    if held.disk.sectors() < 64 {
        return None;
    }
    match load(alloc, &mut held.disk) {
        Ok(list) => {
            held.list = list;
            None
        }
        Err(e) => Some(e),
    }
}

/// Reads a sector, if the disk has it.
fn sector(
    disk: &mut Scripted<MemDisk>,
    at: u32,
    into: &mut [u8; 512],
) -> Option<Result<Found, DiskError>> {
    if at >= disk.sectors() {
        return None;
    }
    Some(disk.read(at, into))
}

/// Writes a byte over a sector, if the disk has it.
fn poke(disk: &mut Scripted<MemDisk>, at: u32, byte: u8) -> Option<Result<(), DiskError>> {
    if at >= disk.sectors() {
        return None;
    }
    Some(disk.poke(at, &[byte; 512]))
}

/// Plays a step.
pub fn play(alloc: Global, held: &mut Held, line: &str) -> Result<String, AllocError> {
    let numbers = numbers(alloc, line)?;
    let numbers = numbers.as_slice();
    match word(line, 0) {
        "blank" => {
            *held = Held::new(alloc);
            format!(in alloc; "{} {}", held.list.len(), held.list.is_empty())
        }
        "free" => {
            held.disk.arm(Arm::Free);
            format!(in alloc; "free")
        }
        "fail" => {
            held.disk.arm(Arm::Fail {
                call: place(numbers, 0),
            });
            format!(in alloc; "armed")
        }
        "stop" => {
            held.disk.arm(Arm::Stop {
                write: place(numbers, 0),
                mask: number(numbers, 1),
            });
            format!(in alloc; "armed")
        }
        "note" => format!(in alloc; "{:?}", note(held, page(numbers, 0), byte(numbers, 1))),
        "notes" => format!(in alloc;
            "{}",
            note_all(held, page(numbers, 0), page(numbers, 1), byte(numbers, 2))
        ),
        "mark" => format!(in alloc; "{:?}", mark(held, page(numbers, 0))),
        "has" => format!(in alloc;
            "{} {}",
            held.list.has(page(numbers, 0)),
            held.list.can_note(page(numbers, 0))
        ),
        "rows" => list_text(alloc, &held.list),
        "load" => {
            laws::rows_old_or_new::<Scripted<MemDisk>>();
            format!(in alloc; "{:?}", reload(alloc, held))
        }
        "poke" => format!(in alloc;
            "{:?}",
            poke(&mut held.disk, place(numbers, 0), byte(numbers, 1))
        ),
        "bytes" => {
            let mut into = [0; 512];
            let found = sector(&mut held.disk, place(numbers, 0), &mut into);
            format!(in alloc; "{found:?} {}", hex(alloc, &into, 40)?)
        }
        _ => format!(in alloc; "no step"),
    }
}
