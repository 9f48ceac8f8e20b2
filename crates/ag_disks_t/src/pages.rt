//! Images of pages, and steps of them.
use crate::calls;
use crate::words::{byte, page};
use ag_model::value::{Change, PageValue, Value, Version, VersionList};
use ag_outside::disk::{Disk, Found};
use ag_page::{Image, fits, to_image};
use ag_pagestore::PageWrite;
use std::alloc::{AllocError, Global};

/// An image of one byte, with the number of a page in front.
fn image(page: u16, byte: u8) -> Image {
    let mut image = [[byte; 512]; 16];
    let number = page.to_be_bytes();
    image[0][0] = number[0];
    image[0][1] = number[1];
    image
}

/// The page of the number at a place, with an image of the byte in front.
fn page_write(numbers: &[u64], i: usize) -> PageWrite {
    let page = page(numbers, i);
    PageWrite {
        page,
        image: image(page, byte(numbers, 0)),
    }
}

/// Writes one byte over each of one to three pages.
pub fn batch<D: Disk>(alloc: Global, disk: &mut D, numbers: &[u64]) -> Result<String, AllocError> {
    let a = page_write(numbers, 1);
    let b = page_write(numbers, 2);
    let c = page_write(numbers, 3);
    let wrote = match numbers.len() {
        2 => calls::one_page(disk, a),
        3 => calls::two_pages(disk, a, b),
        4 => calls::three_pages(disk, a, b, c),
        _ => None,
    };
    format!(in alloc; "{wrote:?}")
}

/// Reads a page, and says what is found with two bytes of it.
pub fn read<D: Disk>(alloc: Global, disk: &mut D, numbers: &[u64]) -> Result<String, AllocError> {
    let mut into = [[0; 512]; 16];
    match calls::page(disk, page(numbers, 0), &mut into) {
        Some(Ok(())) => format!(in alloc; "{} {}", into[3][7], into[15][0]),
        other => format!(in alloc; "{other:?}"),
    }
}

/// The marks of a page, each read from its sector. A lost sector has none.
pub fn marks<D: Disk>(alloc: Global, disk: &mut D, numbers: &[u64]) -> Result<String, AllocError> {
    let mut text = String::new(alloc);
    for i in 0..16 {
        let mut sector = [0; 512];
        let at = 64 + 16 * u32::from(page(numbers, 0)) + i;
        let gap = if i == 0 { "" } else { " " };
        let mark = match calls::sector(disk, at, &mut sector) {
            Some(Ok(Found::Bytes)) => format!(in alloc; "{gap}{}", sector[511])?,
            _ => format!(in alloc; "{gap}-")?,
        };
        text.push_str(&mark)?;
    }
    Ok(text)
}

/// The cells of a page.
pub fn cells<D: Disk>(alloc: Global, disk: &mut D, numbers: &[u64]) -> Result<String, AllocError> {
    format!(in alloc; "{:?}", calls::cells(disk, page(numbers, 0)))
}

/// Puts an image of one byte back, and fetches it.
pub fn put_back<D: Disk>(
    alloc: Global,
    disk: &mut D,
    numbers: &[u64],
) -> Result<String, AllocError> {
    let page = page(numbers, 1);
    let image = image(page, byte(numbers, 0));
    format!(in alloc; "{:?}", calls::put_back(disk, page, &image))
}

/// Fetches a page, and says what is got with a byte of it.
pub fn fetch<D: Disk>(alloc: Global, disk: &mut D, numbers: &[u64]) -> Result<String, AllocError> {
    let mut into = [[0; 512]; 16];
    let got = calls::fetch(disk, page(numbers, 0), &mut into);
    format!(in alloc; "{got:?} {}", into[9][9])
}

/// Page 21 after a Put of key 5 at LSN 2 and its Commit at LSN 3.
fn page_value(alloc: Global) -> Result<PageValue, AllocError> {
    let mut bytes = [0; 64];
    bytes[0] = 0xaa;
    let version = Version {
        lsn: 2,
        txn: 1,
        commit: 3,
        key: 5,
        change: Change::Put(Value { len: 1, bytes }),
    };
    Ok(PageValue {
        page: 21,
        lsn: 3,
        horizon: 0,
        versions: VersionList::from_vec(Vec::from_slice(alloc, &[version])?),
    })
}

/// Writes that value, in an image with a mark that no disk keeps.
pub fn value<D: Disk>(alloc: Global, disk: &mut D) -> Result<String, AllocError> {
    let value = page_value(alloc)?;
    let mut image = [[0; 512]; 16];
    if fits(&value) {
        to_image(&value, 77, &mut image);
    }
    let write = PageWrite { page: 21, image };
    format!(in alloc; "{:?}", calls::one_page(disk, write))
}
