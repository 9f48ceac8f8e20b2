//! Steps of a log on a disk.
use crate::stored;
use crate::words::{from_place, hex, number, numbers, short, word};
use ag_outside::disk::Disk;
use ag_outside::mem_disk::MemDisk;
use ag_outside::order::Arm;
use ag_outside::scripted::Scripted;
use std::alloc::{AllocError, Global};

/// The order of a line: its kind, and the numbers after the first.
fn order_of(kind: &str, numbers: &[u64]) -> Arm {
    match kind {
        "stop" => Arm::Stop {
            write: short(numbers, 1),
            mask: number(numbers, 2),
        },
        "fail" => Arm::Fail {
            call: short(numbers, 1),
        },
        _ => Arm::Free,
    }
}

/// Makes a disk with two blocks. Without an order the numbers after the first are those of the calls that fail below.
fn blocks(
    alloc: Global,
    disk: &mut Scripted<MemDisk>,
    kind: &str,
    numbers: &[u64],
) -> Result<String, AllocError> {
    let order = order_of(kind, numbers);
    let failing = match order {
        Arm::Free => from_place(alloc, numbers, 1)?,
        _ => Vec::new(alloc),
    };
    let (result, made) = stored::written(alloc, failing, order, number(numbers, 0));
    *disk = made;
    format!(in alloc; "{result:?}")
}

/// The bytes of a sector.
fn sector(alloc: Global, disk: &mut Scripted<MemDisk>, at: u32) -> Result<String, AllocError> {
    let mut into = [1; 512];
    if at >= disk.sectors() {
        return format!(in alloc; "no sector");
    }
    let found = disk.read(at, &mut into);
    format!(in alloc; "{found:?} {}", hex(alloc, &into)?)
}

/// Plays a step, if it is one of a log on a disk.
pub fn play(
    alloc: Global,
    disk: &mut Scripted<MemDisk>,
    line: &str,
) -> Result<Option<String>, AllocError> {
    let numbers = numbers(alloc, line)?;
    let numbers = numbers.as_slice();
    let text = match word(line, 0) {
        "blocks" => blocks(alloc, disk, word(line, 2), numbers)?,
        "sector" => sector(alloc, disk, short(numbers, 0))?,
        "load" => format!(in alloc; "{:?}", stored::loaded(alloc, disk))?,
        "load_and_cut" => format!(in alloc; "{:?}", stored::cut(alloc, disk))?,
        _ => return Ok(None),
    };
    Ok(Some(text))
}
