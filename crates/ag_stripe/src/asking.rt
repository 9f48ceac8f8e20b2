//! What a stripe is asked of one page.
ghost use Rattle.std.specs.Prelude.{◌≡◌, true, Err, MatchResult, IfOk, IfErr, OnOk};
ghost use Rattle.ag_model.specs.Rows.{page_of};
ghost use Rattle.ag_page.specs.Home.{HasRisen};
ghost use Rattle.ag_stripe.specs.declared.fault.StripeFault.TheVariants.{Home, NoMemory};
ghost use Rattle.ag_stripe.specs.Redo.{IsKept};
ghost use Rattle.ag_stripe.specs.Tables.{is_own};
ghost use Rattle.ag_stripe.specs.Known.{Says, known};
ghost use Rattle.ag_stripe.specs.Known.Known.{Value};
ghost use Rattle.ag_stripe.specs.Reading.{OnlyReads, WasRead, HasPages, IsFaultOf};
ghost use Rattle.ag_stripe.specs.Answers.{IsRow, IsOldAt, IsRowFault, IsImageOf, IsImageFault};

use crate::fault::StripeFault;
use crate::reading::read_in;
use crate::stripe::Stripe;
use ag_model::page::page_of;
use ag_model::value::{PageValue, Row, VersionList};
use ag_page::{Image, PageHome, fits, to_image};
use ag_version::row_at;
use std::alloc::Global;

/// A copy of a page value.
fn copied(alloc: Global, v: &PageValue) -> Result<PageValue, StripeFault>
    ensures value { IfOk result (λ copy. copy ≡ v.now) }
    ensures fault { IfErr result (λ e. e ≡ NoMemory) }
{
    let versions = Vec::from_slice(alloc, v.versions.as_slice())?;
    Ok(PageValue {
        page: v.page,
        lsn: v.lsn,
        horizon: v.horizon,
        versions: VersionList::from_vec(versions),
    })
}

/// The row of a key at a snapshot, by the page of the key.
fn row_of(v: &PageValue, key: u32, snapshot: u64) -> Result<Row, StripeFault>
    ensures { MatchResult result (IsRow key snapshot (Value v.now)) (IsOldAt snapshot v.now) }
{
    match row_at(v, key, snapshot, None) {
        Ok(row) => Ok(row),
        Err(old) => Err(StripeFault::TooOld {
            snapshot: old.snapshot,
            horizon: old.horizon,
        }),
    }
}

impl<H: PageHome> Stripe<H> {
    /// Reads a page in, and refuses one whose image isn't sound.
    fn need(&mut self, page: u16) -> Result<(), StripeFault>
        requires own { is_own self.old.table page ≡ true }
        requires home { HasPages H.has_page self.old.table self.old.home }
        ensures kept { OnOk result (IsKept self.new.table page) }
        ensures fault { IfErr result (IsFaultOf page (known (H.told self.old.home) self.old.table page)) }
        ensures reads { OnlyReads (H.told self.old.home) self.old.table self.new.table }
        ensures applied { self.new.applied ≡ self.old.applied }
        ensures opening { self.new.opening ≡ self.old.opening }
        ensures ready { HasPages H.has_page self.new.table self.new.home }
        ensures home { WasRead H.has_page H.told H.faults H.refusals H.leaves self.old.home self.new.home }
        ensures cause { result ≡ Err Home → HasRisen (H.faults self.old.home) (H.faults self.new.home) }
    {
        if read_in(self.alloc, &mut self.table, &mut self.home, page)? {
            Ok(())
        } else {
            Err(StripeFault::Bad { page })
        }
    }

    /// The value of a page.
    pub fn value_of(&mut self, page: u16) -> Result<PageValue, StripeFault>
        requires own { is_own self.old.table page ≡ true }
        requires home { HasPages H.has_page self.old.table self.old.home }
        ensures value { IfOk result (λ v. Says (known (H.told self.old.home) self.old.table page) (Value v)) }
        ensures fault { IfErr result (IsFaultOf page (known (H.told self.old.home) self.old.table page)) }
        ensures reads { OnlyReads (H.told self.old.home) self.old.table self.new.table }
        ensures applied { self.new.applied ≡ self.old.applied }
        ensures opening { self.new.opening ≡ self.old.opening }
        ensures ready { HasPages H.has_page self.new.table self.new.home }
        ensures home { WasRead H.has_page H.told H.faults H.refusals H.leaves self.old.home self.new.home }
        ensures cause { result ≡ Err Home → HasRisen (H.faults self.old.home) (H.faults self.new.home) }
    {
        self.need(page)?;
        copied(self.alloc, self.table.value(page))
    }

    /// The image of a page, with the mark 0 in each sector. Unlawful also says that the value fits no image.
    pub fn image_of(&mut self, page: u16, out: &mut Image) -> Result<(), StripeFault>
        requires own { is_own self.old.table page ≡ true }
        requires home { HasPages H.has_page self.old.table self.old.home }
        ensures image { OnOk result (IsImageOf (known (H.told self.old.home) self.old.table page) out.new) }
        ensures fault { IfErr result (IsImageFault page (known (H.told self.old.home) self.old.table page)) }
        ensures reads { OnlyReads (H.told self.old.home) self.old.table self.new.table }
        ensures applied { self.new.applied ≡ self.old.applied }
        ensures opening { self.new.opening ≡ self.old.opening }
        ensures ready { HasPages H.has_page self.new.table self.new.home }
        ensures home { WasRead H.has_page H.told H.faults H.refusals H.leaves self.old.home self.new.home }
        ensures cause { result ≡ Err Home → HasRisen (H.faults self.old.home) (H.faults self.new.home) }
    {
        self.need(page)?;
        let value = self.table.value(page);
        if !fits(value) {
            return Err(StripeFault::Unlawful { page });
        }
        to_image(value, 0, out);
        Ok(())
    }

    /// The row of a key at a snapshot, an LSN. TooOld says that the snapshot is below the horizon of the key's page.
    pub fn row_at(&mut self, key: u32, snapshot: u64) -> Result<Row, StripeFault>
        requires own { is_own self.old.table (page_of self.old.table.pages key) ≡ true }
        requires home { HasPages H.has_page self.old.table self.old.home }
        ensures row { IfOk result (IsRow key snapshot (known (H.told self.old.home) self.old.table (page_of self.old.table.pages key))) }
        ensures fault { IfErr result (IsRowFault (page_of self.old.table.pages key) snapshot (known (H.told self.old.home) self.old.table (page_of self.old.table.pages key))) }
        ensures reads { OnlyReads (H.told self.old.home) self.old.table self.new.table }
        ensures applied { self.new.applied ≡ self.old.applied }
        ensures opening { self.new.opening ≡ self.old.opening }
        ensures ready { HasPages H.has_page self.new.table self.new.home }
        ensures home { WasRead H.has_page H.told H.faults H.refusals H.leaves self.old.home self.new.home }
        ensures cause { result ≡ Err Home → HasRisen (H.faults self.old.home) (H.faults self.new.home) }
    {
        let page = page_of(self.table.pages(), key);
        self.need(page)?;
        row_of(self.table.value(page), key, snapshot)
    }
}
