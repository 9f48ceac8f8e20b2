//! Pages that are read in from their home.
ghost use Rattle.std.specs.Prelude.{◌≡◌, ◌==◌, ℕ, true, false, Ok, Err, IfErr, MatchResult};
ghost use Rattle.ag_page.specs.Home.{HasRisen};
ghost use Rattle.ag_stripe.specs.declared.fault.StripeFault.TheVariants.{Home};
ghost use Rattle.ag_stripe.specs.Tables.{is_own, slot_of};
ghost use Rattle.ag_stripe.specs.Known.{Says, found_as, is_zero_page, at_place, in_image, in_home, known};
ghost use Rattle.ag_stripe.specs.Known.Known.{Value, NotSound, NotItsImage};
ghost use Rattle.ag_stripe.specs.Reading.{OnlyReads, WasRead, IsReadFault};
ghost use Rattle.ag_stripe.specs.Redo.{IsKept};

use crate::fault::StripeFault;
use crate::table::PageTable;
use ag_model::value::PageValue;
use ag_page::{Got, HomeError, Image, PageFault, PageHome, from_image};
use std::alloc::Global;

/// Whether a page value is the empty page of the number 0.
fn is_zero_page(v: &PageValue) -> bool
    ensures { result ≡ is_zero_page v.now }
{
    v.page == 0 && v.lsn == 0 && v.horizon == 0 && v.versions.is_empty()
}

/// A page value that was read from an image, at the place of this page.
fn at_place(page: u16, v: PageValue) -> Result<PageValue, StripeFault>
    ensures answer { MatchResult result (λ w. at_place page v ≡ Value w) (IsReadFault page (at_place page v ≡ NotItsImage)) }
    ensures no_home { result ≡ Err Home → ⊥ }
{
    if v.page == page {
        return Ok(v);
    }
    if is_zero_page(&v) {
        return Ok(PageValue {
            page,
            lsn: v.lsn,
            horizon: v.horizon,
            versions: v.versions,
        });
    }
    Err(StripeFault::Unlawful { page })
}

/// The value that an image gives to the page at whose place it stands. An image of zeros is the empty page there.
fn value_in(alloc: Global, page: u16, image: &Image) -> Result<PageValue, StripeFault>
    ensures answer { MatchResult result (λ v. in_image page image.now ≡ Value v) (IsReadFault page (in_image page image.now ≡ NotItsImage)) }
    ensures no_home { result ≡ Err Home → ⊥ }
{
    match from_image(alloc, image) {
        Ok(v) => at_place(page, v),
        Err(PageFault::NotPage) => Err(StripeFault::Unlawful { page }),
        Err(PageFault::NoMemory) => Err(StripeFault::NoMemory),
    }
}

/// Reads the value of a page from its home. There is none where the image isn't sound.
fn fetch_value<H: PageHome>(
    alloc: Global,
    home: &mut H,
    page: u16,
) -> Result<Option<PageValue>, StripeFault>
    requires { H.has_page home.old page ≡ true }
    ensures answer { MatchResult result (λ found. Says (in_home (H.told home.old) page) (found_as found)) (IsReadFault page (Says (in_home (H.told home.old) page) NotItsImage)) }
    ensures home { WasRead H.has_page H.told H.faults H.refusals H.leaves home.old home.new }
    ensures cause { result ≡ Err Home → HasRisen (H.faults home.old) (H.faults home.new) }
{
    let mut image = [[0; 512]; 16];
    match home.fetch(page, &mut image) {
        Ok(Got::Sound) => Ok(Some(value_in(alloc, page, &image)?)),
        Ok(Got::Torn) => Ok(None),
        Ok(Got::Lost) => Ok(None),
        Err(HomeError::Failed) => Err(StripeFault::Home),
        Err(HomeError::NoMemory) => Err(StripeFault::NoMemory),
    }
}

/// Reads a page in, unless it was. The answer is false where its image isn't sound.
pub(crate) fn read_in<H: PageHome>(
    alloc: Global,
    table: &mut PageTable,
    home: &mut H,
    page: u16,
) -> Result<bool, StripeFault>
    requires own { is_own table.old page ≡ true }
    requires has { H.has_page home.old page ≡ true }
    ensures reads { OnlyReads (H.told home.old) table.old table.new }
    ensures others { (q : ℕ) → (q == page) ≡ false → slot_of table.new q ≡ slot_of table.old q }
    ensures kept { result ≡ Ok true → IsKept table.new page }
    ensures bad { result ≡ Ok false → Says (known (H.told home.old) table.old page) NotSound }
    ensures fault { IfErr result (IsReadFault page (Says (known (H.told home.old) table.old page) NotItsImage)) }
    ensures home { WasRead H.has_page H.told H.faults H.refusals H.leaves home.old home.new }
    ensures cause { result ≡ Err Home → HasRisen (H.faults home.old) (H.faults home.new) }
{
    if table.has(page) {
        return Ok(true);
    }
    match fetch_value(alloc, home, page)? {
        Some(value) => {
            table.keep(page, value);
            Ok(true)
        }
        None => Ok(false),
    }
}
