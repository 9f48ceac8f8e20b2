//! Where a key stands.
ghost use Rattle.std.specs.Prelude.{◌≡◌, ◌<◌, ◌≤◌};
ghost use Rattle.ag_model.specs.Rows.{page_of};

/// The page of a key, where there are so many data pages.
pub fn page_of(pages: u16, key: u32) -> u16
    requires some { 0 < pages }
    requires few { pages ≤ 2048 }
    ensures { result ≡ page_of pages key }
{
    16 + (key % u32::from(pages)) as u16
}
