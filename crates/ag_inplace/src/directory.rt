//! Where the versions of a page stand in its bytes.
ghost use Rattle.ag_model.specs.declared.value.PageValue.{PageValue};
ghost use Rattle.ag_page.specs.Image.{image_bytes};
ghost use Rattle.ag_inplace.specs.Spelled.{Spells, IsPage};
ghost use Rattle.ag_inplace.specs.Listing.{Lists};

use crate::entries::{size_in, u16_in};
use ag_page::Image;

/// Where each version of a page begins, in bytes from the front of the page, and then where the last
/// one ends. A page has room for 271 versions.
#[derive(Clone, Copy)]
pub(crate) struct Directory {
    pub count: u16,
    pub places: [u16; 272],
}

/// Where the first version of a page begins.
pub(crate) const FRONT: u16 = 32;

/// The directory of a page.
pub(crate) fn directory_of(i: &Image) -> Directory
    requires { IsPage i.now }
    ensures { (v : PageValue) → Spells i.now v → Lists (image_bytes i.now) result v.versions }
{
    let count = u16_in(i, 2);
    let mut places = [FRONT; 272];
    let mut at = FRONT;
    for k in 0..usize::from(count) {
        at += size_in(i, usize::from(at));
        places[k + 1] = at;
    }
    Directory { count, places }
}
