//! The header of a page: its number, how many versions it has, its LSN and its horizon.
ghost use Rattle.std.specs.Prelude.{◌≡◌, ◌++◌, ℕ, List, length};
ghost use Rattle.ag_model.specs.declared.value.PageValue.{PageValue};
ghost use Rattle.ag_page.specs.Image.{image_bytes, marks};
ghost use Rattle.ag_page.specs.Spelling.{header};
ghost use Rattle.ag_inplace.specs.Spelled.{Spells, IsPage};

use crate::entries::u64_in;
use crate::parts::write_part;
use ag_page::Image;

/// The horizon of a page, an LSN.
pub(crate) fn horizon_in(i: &Image) -> u64
    requires { IsPage i.now }
    ensures { (v : PageValue) → Spells i.now v → result ≡ v.horizon }
{
    u64_in(i, 12)
}

/// Writes how many versions a page has, its LSN and its horizon.
pub(crate) fn set_header(i: &mut Image, count: u16, lsn: u64, horizon: u64)
    requires { length (image_bytes i.old) ≡ 8176 }
    ensures bytes { (v w : PageValue) (rest : List ℕ) → image_bytes i.old ≡ header v ++ rest
        → w.page ≡ v.page → length w.versions ≡ count → w.lsn ≡ lsn → w.horizon ≡ horizon → image_bytes i.new ≡ header w ++ rest }
    ensures marks { marks i.new ≡ marks i.old }
{
    write_part(i, 2, &count.to_be_bytes());
    write_part(i, 4, &lsn.to_be_bytes());
    write_part(i, 12, &horizon.to_be_bytes());
}
