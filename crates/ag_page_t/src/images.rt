//! The image of a page, written, changed and read.
use crate::showing::hex;
use crate::words::{at, byte, place};
use ag_model::value::PageValue;
use ag_page::{Image, fits, from_image, marks, to_image};
use std::io;

/// Whether a page has an image.
pub fn fits_one(v: &PageValue) -> bool {
    fits(v)
}

/// Writes the image of a page, where it has one.
pub fn write(v: &PageValue, mark: u8, out: &mut Image) {
    if fits(v) {
        to_image(v, mark, out);
    }
}

/// The marks of an image.
pub fn marks_of(image: &Image) -> [u8; 16] {
    marks(image)
}

/// Changes a byte of a sector.
pub fn poke(image: &mut Image, n: &[u64]) {
    if let Some(sector) = image.get_mut(place(at(n, 0))) {
        if let Some(slot) = sector.get_mut(place(at(n, 1))) {
            *slot = byte(at(n, 2));
        }
    }
}

/// Prints the bytes of a sector, from a place to another.
pub fn bytes(rt: &HostRuntime, image: &Image, n: &[u64]) -> io::Result<()> {
    match image.get(place(at(n, 0))) {
        Some(sector) => hex(
            rt,
            sector.get(place(at(n, 1))..place(at(n, 2))).unwrap_or(&[]),
        ),
        None => Ok(()),
    }
}

/// Prints what the image is read as with one byte changed, which is named by its place among the 8,176.
pub fn changed(rt: &HostRuntime, image: &Image, n: &[u64]) -> io::Result<()> {
    let mut copy = *image;
    let at_byte = at(n, 0);
    poke(&mut copy, &[at_byte / 511, at_byte % 511, at(n, 1)]);
    match from_image(rt.alloc(), &copy) {
        Ok(_) => print!(rt; ": a page"),
        Err(e) => print!(rt; ": {e:?}"),
    }
}

/// Prints what the image is read as, and whether its versions are those of the page.
pub fn read(rt: &HostRuntime, v: &PageValue, image: &Image) -> io::Result<()> {
    match from_image(rt.alloc(), image) {
        Ok(w) => {
            let same = w.versions.as_slice() == v.versions.as_slice();
            let count = w.versions.len();
            print!(rt; ": page {}, LSN {}, horizon {}", w.page, w.lsn, w.horizon)?;
            print!(rt; ", {count} versions, the same: {same}")
        }
        Err(e) => print!(rt; ": {e:?}"),
    }
}
