//! The disk, and the images that are written to it.
use crate::showing::hex;
use crate::words::{at, byte, long, place, short};
use ag_outside::disk::{Disk, Found};
use ag_outside::mem_disk::MemDisk;
use ag_outside::order::Arm;
use ag_outside::scripted::Scripted;
use ag_page::Image;
use ag_pagestore::{PageWrite, PageWriteFault, write_batch};
use std::alloc::{AllocError, Global};
use std::io;

/// A disk in memory that follows an order.
pub type OneDisk = Scripted<MemDisk>;

/// A fresh disk, whose calls of these numbers fail.
pub fn fresh(alloc: Global, failing: &[u64]) -> Result<OneDisk, AllocError> {
    let failing = Vec::from_slice(alloc, failing)?;
    Ok(Scripted::new(alloc, MemDisk::new(alloc, failing, false)))
}

/// Spoils the first sector of a page, and answers whether the disk took that.
fn spoil(disk: &mut OneDisk, page: u64) -> bool {
    let first = 64 + 16 * u32::from(short(page));
    if first >= disk.sectors() {
        return false;
    }
    disk.write(first, &[[7; 512]]).is_ok() && disk.sync().is_ok()
}

/// The mark of a sector, if it isn't lost.
fn mark(disk: &mut OneDisk, at: u32) -> Option<u8> {
    let mut sector = [0; 512];
    if at >= disk.sectors() {
        return None;
    }
    match disk.read(at, &mut sector) {
        Ok(Found::Bytes) => Some(sector[511]),
        _ => None,
    }
}

/// The marks of a page.
fn marks(disk: &mut OneDisk, page: u64) -> [Option<u8>; 16] {
    let mut marks = [None; 16];
    let mut at = 64 + 16 * u32::from(short(page));
    for place in &mut marks {
        *place = mark(disk, at);
        at = at.wrapping_add(1);
    }
    marks
}

/// Plays a step on the disk.
pub fn play(rt: &HostRuntime, disk: &mut OneDisk, verb: &str, n: &[u64]) -> io::Result<()> {
    match verb {
        "new" => *disk = fresh(rt.alloc(), n)?,
        "fail" => disk.arm(Arm::Fail {
            call: long(at(n, 0)),
        }),
        "why" => print!(rt; " {:?}", disk.why())?,
        "spoil" => print!(rt; " {}", spoil(disk, at(n, 0)))?,
        "marks" => print!(rt; " {:?}", marks(disk, at(n, 0)))?,
        _ => {}
    }
    Ok(())
}

/// Writes one image, where its page has a place.
fn write(disk: &mut OneDisk, write: &PageWrite) -> Option<Result<(), PageWriteFault>> {
    if (16..2064).contains(&write.page) && disk.sectors() >= 33088 {
        Some(write_batch(disk, &[*write]))
    } else {
        None
    }
}

/// An image of zeros for a page, but for one byte of its first sector.
fn almost_zeros(n: &[u64]) -> PageWrite {
    let mut image: Image = [[0; 512]; 16];
    if let Some(slot) = image[0].get_mut(place(at(n, 1))) {
        *slot = byte(at(n, 2));
    }
    PageWrite {
        page: short(at(n, 0)),
        image,
    }
}

/// Writes the images that wait, each by itself, and prints the answers.
fn write_each(rt: &HostRuntime, disk: &mut OneDisk, images: &Vec<PageWrite>) -> io::Result<()> {
    for image in images {
        print!(rt; " {:?}", write(disk, image))?;
    }
    Ok(())
}

/// Plays a step on the images that wait to be written.
pub fn play_images(
    rt: &HostRuntime,
    disk: &mut OneDisk,
    images: &mut Vec<PageWrite>,
    verb: &str,
    n: &[u64],
) -> io::Result<()> {
    match verb {
        "none" => images.clear(),
        "zeros" => images.push(almost_zeros(n))?,
        "write" => write_each(rt, disk, images)?,
        "front" => {
            if let Some(last) = images.last() {
                hex(rt, last.image[0].split_at(51).0)?;
            }
        }
        _ => {}
    }
    Ok(())
}
