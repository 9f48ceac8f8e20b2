//! What can be asked of an image and of a change before an edit.
ghost use Rattle.std.specs.Prelude.{◌≡◌, true};
ghost use Rattle.ag_page.specs.Spelling.{are_zero, has_spelling};
ghost use Rattle.ag_inplace.specs.Spelled.{IsPage};

use ag_model::value::Change;
use ag_page::{Image, from_image};
use std::alloc::Global;

/// Whether an image is that of a page value, and memory sufficed to read it.
pub fn is_page(alloc: Global, i: &Image) -> bool
    ensures { result ≡ true → IsPage i.now }
{
    from_image(alloc, i).is_ok()
}

/// Whether all bytes are zero.
fn are_zero(bytes: &[u8]) -> bool
    ensures { result ≡ are_zero bytes.now }
{
    bytes.iter().all(|b| *b == 0)
}

/// Whether a change has zeros behind the bytes of its value.
pub fn is_spelled(change: &Change) -> bool
    ensures { result ≡ has_spelling change.now }
{
    match change {
        Change::Put(value) => {
            let len = usize::from(value.len);
            len <= 64 && are_zero(&value.bytes[len..])
        }
        Change::Del => true,
    }
}
