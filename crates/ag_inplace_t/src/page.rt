//! One page, as a value and as an image.
use crate::words::{at, short};
use ag_model::value::{PageValue, VersionList};
use ag_page::{Image, fits, to_image};
use std::alloc::Global;

/// The mark of the image.
const MARK: u8 = 7;

/// A page as a value and as an image, each edited in its own way.
#[derive(Drop)]
pub struct Page {
    pub value: PageValue,
    pub image: Image,
}

/// A page with no versions: its number, its LSN and its horizon.
pub fn empty(alloc: Global, n: &[u64]) -> Page {
    let value = PageValue {
        page: short(at(n, 0)),
        lsn: at(n, 1),
        horizon: at(n, 2),
        versions: VersionList::new(alloc),
    };
    let mut image = [[0; 512]; 16];
    if fits(&value) {
        to_image(&value, MARK, &mut image);
    }
    Page { value, image }
}

/// Whether two sectors are the same.
fn are_same(a: &[u8; 512], b: &[u8; 512]) -> bool {
    a == b
}

/// Whether the image that was edited is the one that the value gives.
pub fn is_same(page: &Page) -> bool {
    if !fits(&page.value) {
        return false;
    }
    let mut made = [[0; 512]; 16];
    to_image(&page.value, MARK, &mut made);
    page.image
        .iter()
        .zip(made.iter())
        .all(|(a, b)| are_same(a, b))
}
