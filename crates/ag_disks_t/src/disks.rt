//! Steps of disks.
use crate::words::{byte, hex, number, numbers, place, word};
use crate::{calls, pages};
use ag_outside::disk::{Disk, Sector};
use ag_outside::mem_disk::MemDisk;
use ag_outside::order::Arm;
use ag_outside::scripted::Scripted;
use std::alloc::{AllocError, Global};
use std::mem;

/// The disk that a script holds.
#[derive(Drop)]
pub enum Held {
    Nothing,
    /// One in memory.
    Plain(MemDisk),
    /// One that follows an order over one in memory.
    Ordered(Scripted<MemDisk>),
}

/// Writes sectors, each of one byte.
fn write<D: Disk>(alloc: Global, disk: &mut D, numbers: &[u64]) -> Result<String, AllocError> {
    let mut sectors: Vec<Sector> = Vec::new(alloc);
    for i in 1..numbers.len() {
        sectors.push([byte(numbers, i); 512])?;
    }
    format!(in alloc;
        "{:?}",
        calls::write(disk, place(numbers, 0), sectors.as_slice())
    )
}

/// Reads a sector, and says what is found with its first byte and its last two.
fn read<D: Disk>(alloc: Global, disk: &mut D, numbers: &[u64]) -> Result<String, AllocError> {
    let mut into = [0; 512];
    let found = calls::sector(disk, place(numbers, 0), &mut into);
    format!(in alloc;
        "{found:?} {}",
        hex(alloc, &[into[0], into[510], into[511]], 3)?
    )
}

/// The first 51 bytes of a sector.
fn front<D: Disk>(alloc: Global, disk: &mut D, numbers: &[u64]) -> Result<String, AllocError> {
    let mut into = [9; 512];
    let found = calls::sector(disk, place(numbers, 0), &mut into);
    format!(in alloc; "{found:?} {}", hex(alloc, &into, 51)?)
}

/// Plays a step on any disk.
fn on_disk<D: Disk>(alloc: Global, disk: &mut D, line: &str) -> Result<String, AllocError> {
    let numbers = numbers(alloc, line)?;
    let numbers = numbers.as_slice();
    match word(line, 0) {
        "sectors" => format!(in alloc; "{}", disk.sectors()),
        "write" => write(alloc, disk, numbers),
        "read" => read(alloc, disk, numbers),
        "front" => front(alloc, disk, numbers),
        "sync" => format!(in alloc; "{:?}", disk.sync()),
        "batch" => pages::batch(alloc, disk, numbers),
        "page" => pages::read(alloc, disk, numbers),
        "marks" => pages::marks(alloc, disk, numbers),
        "cells" => pages::cells(alloc, disk, numbers),
        "put_back" => pages::put_back(alloc, disk, numbers),
        "fetch" => pages::fetch(alloc, disk, numbers),
        "value" => pages::value(alloc, disk),
        _ => format!(in alloc; "no step"),
    }
}

/// The order of a line, if it is one.
fn order_of(name: &str, numbers: &[u64]) -> Option<Arm> {
    match name {
        "free" => Some(Arm::Free),
        "stop" => Some(Arm::Stop {
            write: place(numbers, 0),
            mask: number(numbers, 1),
        }),
        "fail" => Some(Arm::Fail {
            call: place(numbers, 0),
        }),
        _ => None,
    }
}

/// Plays a step on a disk that follows an order.
fn on_ordered(
    alloc: Global,
    disk: &mut Scripted<MemDisk>,
    line: &str,
) -> Result<String, AllocError> {
    let numbers = numbers(alloc, line)?;
    let numbers = numbers.as_slice();
    let name = word(line, 0);
    if let Some(order) = order_of(name, numbers) {
        disk.arm(order);
        return format!(in alloc; "{order:?}");
    }
    let at = place(numbers, 0);
    match name {
        "why" => format!(in alloc; "{:?}", disk.why()),
        "poke" => format!(in alloc; "{:?}", calls::poke(disk, at, &[byte(numbers, 1); 512])),
        "lose" => format!(in alloc; "{:?}", calls::lose(disk, at, place(numbers, 1))),
        _ => on_disk(alloc, disk, line),
    }
}

/// The disk that a line makes, which fails at the calls of its numbers.
fn made(alloc: Global, line: &str) -> Result<Option<Held>, AllocError> {
    let failing = numbers(alloc, line)?;
    Ok(match word(line, 0) {
        "plain" => Some(Held::Plain(MemDisk::new(alloc, failing, false))),
        "plain_traced" => Some(Held::Plain(MemDisk::new(alloc, failing, true))),
        "ordered" => Some(Held::Ordered(Scripted::new(alloc, MemDisk::new(alloc, failing, false)))),
        "ordered_traced" => Some(Held::Ordered(Scripted::new(
            alloc,
            MemDisk::new(alloc, failing, true),
        ))),
        _ => None,
    })
}

/// The disk below one that follows an order.
fn below(held: Held) -> Held {
    match held {
        Held::Ordered(disk) => Held::Plain(disk.into_inner()),
        other => other,
    }
}

/// Plays a step.
pub fn play(alloc: Global, held: &mut Held, line: &str) -> Result<String, AllocError> {
    if let Some(made) = made(alloc, line)? {
        *held = made;
        return format!(in alloc; "made");
    }
    if word(line, 0) == "below" {
        *held = below(mem::replace(held, Held::Nothing));
        return format!(in alloc; "taken");
    }
    match held {
        Held::Nothing => format!(in alloc; "no disk"),
        Held::Plain(disk) => on_disk(alloc, disk, line),
        Held::Ordered(disk) => on_ordered(alloc, disk, line),
    }
}
