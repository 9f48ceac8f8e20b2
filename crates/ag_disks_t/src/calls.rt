//! Calls of a disk, and of its pages: each tests what it requires, and answers None where it may not be made.
use ag_model::answer::Cell;
use ag_outside::disk::{Disk, DiskError, Found, Sector};
use ag_outside::scripted::Scripted;
use ag_page::{Got, HomeError, Image, PageHome};
use ag_pagestore::{
    PageReadFault, PageStore, PageWrite, PageWriteFault, read, read_cells, write_batch,
};

/// The sectors that a disk of pages has at least.
const PAGE_SECTORS: u32 = 33_088;

/// Reads a sector.
pub fn sector<D: Disk>(
    disk: &mut D,
    at: u32,
    into: &mut Sector,
) -> Option<Result<Found, DiskError>> {
    if at < disk.sectors() {
        Some(disk.read(at, into))
    } else {
        None
    }
}

/// Writes sectors.
pub fn write<D: Disk>(disk: &mut D, at: u32, from: &[Sector]) -> Option<Result<(), DiskError>> {
    if from.len() <= 16 && at as usize + from.len() <= disk.sectors() as usize {
        Some(disk.write(at, from))
    } else {
        None
    }
}

/// Writes a sector outside of the order.
pub fn poke<D: Disk>(
    disk: &mut Scripted<D>,
    at: u32,
    from: &Sector,
) -> Option<Result<(), DiskError>> {
    if at < disk.sectors() {
        Some(disk.poke(at, from))
    } else {
        None
    }
}

/// Loses sectors.
pub fn lose<D: Disk>(
    disk: &mut Scripted<D>,
    first: u32,
    count: u32,
) -> Option<Result<(), DiskError>> {
    if count <= 16 && first < disk.sectors() && count <= disk.sectors() - first {
        Some(disk.lose(first, count))
    } else {
        None
    }
}

/// Writes one page.
pub fn one_page<D: Disk>(disk: &mut D, a: PageWrite) -> Option<Result<(), PageWriteFault>> {
    if disk.sectors() >= PAGE_SECTORS && a.page >= 16 && a.page < 2064 {
        Some(write_batch(disk, &[a]))
    } else {
        None
    }
}

/// Writes two pages that rise.
pub fn two_pages<D: Disk>(
    disk: &mut D,
    a: PageWrite,
    b: PageWrite,
) -> Option<Result<(), PageWriteFault>> {
    if disk.sectors() >= PAGE_SECTORS && a.page >= 16 && a.page < b.page && b.page < 2064 {
        Some(write_batch(disk, &[a, b]))
    } else {
        None
    }
}

/// Writes three pages that rise.
pub fn three_pages<D: Disk>(
    disk: &mut D,
    a: PageWrite,
    b: PageWrite,
    c: PageWrite,
) -> Option<Result<(), PageWriteFault>> {
    let rise = a.page < b.page && b.page < c.page;
    if disk.sectors() >= PAGE_SECTORS && a.page >= 16 && rise && c.page < 2064 {
        Some(write_batch(disk, &[a, b, c]))
    } else {
        None
    }
}

/// Reads a page.
pub fn page<D: Disk>(
    disk: &mut D,
    page: u16,
    into: &mut Image,
) -> Option<Result<(), PageReadFault>> {
    if disk.sectors() >= PAGE_SECTORS && page >= 16 && page < 2064 {
        Some(read(disk, page, into))
    } else {
        None
    }
}

/// Reads the cells of a page.
pub fn cells<D: Disk>(disk: &mut D, page: u16) -> Option<Result<[Cell; 16], DiskError>> {
    if disk.sectors() >= PAGE_SECTORS && page >= 16 && page < 2064 {
        Some(read_cells(disk, page))
    } else {
        None
    }
}

/// Puts a page back where it is at home.
pub fn put_back<D: Disk>(disk: &mut D, page: u16, image: &Image) -> Option<Result<(), HomeError>> {
    if disk.sectors() >= PAGE_SECTORS && page >= 16 && page < 2064 {
        let mut store = PageStore::new(disk);
        Some(store.put_back(page, image))
    } else {
        None
    }
}

/// Fetches a page from its home.
pub fn fetch<D: Disk>(disk: &mut D, page: u16, into: &mut Image) -> Option<Result<Got, HomeError>> {
    if disk.sectors() >= PAGE_SECTORS && page >= 16 && page < 2064 {
        let mut store = PageStore::new(disk);
        Some(store.fetch(page, into))
    } else {
        None
    }
}
