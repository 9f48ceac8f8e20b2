//! Laws of page images.
ghost use Rattle.std.specs.Prelude.{◌≡◌, ℕ, List, [], length, true, replicate};
ghost use Rattle.ag_model.specs.declared.value.PageValue.{PageValue};
ghost use Rattle.ag_page.specs.Image.{image, image_bytes, marks};
ghost use Rattle.ag_page.specs.Spelling.{has_image, page_bytes, IsInRange};

/// Each page value has one spelling of 8,176 bytes. An image has its bytes and its mark, and the
/// empty page of the number 0 is spelled by zeros alone.
pub fn images()
    ensures apart { (v w : PageValue) → has_image v ≡ true → IsInRange v → has_image w ≡ true → IsInRange w → page_bytes v ≡ page_bytes w → v ≡ w }
    ensures size { (v : PageValue) → has_image v ≡ true → IsInRange v → length (page_bytes v) ≡ 8176 }
    ensures bytes { (mark : ℕ) (bytes : List ℕ) → length bytes ≡ 8176 → image_bytes (image mark bytes) ≡ bytes }
    ensures marks { (mark : ℕ) (bytes : List ℕ) → length bytes ≡ 8176 → marks (image mark bytes) ≡ replicate 16 mark }
    ensures zeros { page_bytes (record { page = 0; lsn = 0; horizon = 0; versions = [] }) ≡ replicate 8176 0 }
{}
