//! A stripe that is lent the images on a disk for one call.
ghost use Rattle.std.specs.Prelude.{◌≡◌, ◌+◌, ◌<◌, ◌≤◌, ◌^◌, ◌||◌, ℕ, true, false, length, Err, OnOk, IfOk, IfErr};
ghost use Rattle.ag_model.specs.declared.record.Log.{Log};
ghost use Rattle.ag_model.specs.Rows.{page_of};
ghost use Rattle.ag_outside.specs.Counts.{HasRisen};
ghost use Rattle.ag_stripe.specs.declared.fault.StripeFault.TheVariants.{Bad, Home};
ghost use Rattle.ag_stripe.specs.Ahead.{IsAhead, AreNext};
ghost use Rattle.ag_stripe.specs.Answers.{IsRow, IsRowFault, IsImageOf, IsImageFault, IsApplyFault};
ghost use Rattle.ag_stripe.specs.Known.{Says, known};
ghost use Rattle.ag_stripe.specs.Known.Known.{Value, NotSound};
ghost use Rattle.ag_stripe.specs.Reading.{OnlyReads, IsFaultOf};
ghost use Rattle.ag_stripe.specs.Redo.{is_touched, AreDirtyKept};
ghost use Rattle.ag_stripe.specs.Tables.{is_own, is_dirty, slot_of, IsSameTable};
ghost use Rattle.ag_pages.specs.Views.{told_by};
ghost use Rattle.ag_pages.specs.Reading.{WasOnlyRead};

use crate::lent;
use ag_model::record::Record;
use ag_model::value::{PageValue, Row};
use ag_outside::disk::Disk;
use ag_page::Image;
use ag_pagestore::PageStore;
use ag_stripe::{Away, Stripe, StripeFault};

/// The row of a key at a snapshot, by the stripe of its page.
pub(crate) fn row_at<D: Disk>(
    stripe: Stripe<Away>,
    disk: &mut D,
    key: u32,
    snapshot: u64,
) -> (Stripe<Away>, Result<Row, StripeFault>)
    requires own { is_own stripe.table (page_of stripe.table.pages key) ≡ true }
    requires few { stripe.table.pages ≤ 2048 }
    requires places { 33088 ≤ D.size disk.old }
    ensures row { IfOk result.1 (IsRow key snapshot (known (told_by D.keeps D.reads disk.old) stripe.table (page_of stripe.table.pages key))) }
    ensures fault { IfErr result.1 (IsRowFault (page_of stripe.table.pages key) snapshot (known (told_by D.keeps D.reads disk.old) stripe.table (page_of stripe.table.pages key))) }
    ensures reads { OnlyReads (told_by D.keeps D.reads disk.old) stripe.table result.0.table }
    ensures applied { result.0.applied ≡ stripe.applied }
    ensures disk { WasOnlyRead D.size D.keeps D.reads D.may_hold D.did disk.old disk.new }
    ensures later { D.faults disk.old ≤ D.faults disk.new }
    ensures cause { result.1 ≡ Err Home → HasRisen (D.faults disk.old) (D.faults disk.new) }
{
    let mut came = None;
    let _store = lent::row_at(stripe, PageStore::new(disk), key, snapshot, &mut came);
    match came {
        Some(both) => both,
        None => unreachable!(),
    }
}

/// The value of a page, by its stripe.
pub(crate) fn value_of<D: Disk>(
    stripe: Stripe<Away>,
    disk: &mut D,
    page: u16,
) -> (Stripe<Away>, Result<PageValue, StripeFault>)
    requires own { is_own stripe.table page ≡ true }
    requires few { stripe.table.pages ≤ 2048 }
    requires places { 33088 ≤ D.size disk.old }
    ensures value { IfOk result.1 (λ v. Says (known (told_by D.keeps D.reads disk.old) stripe.table page) (Value v)) }
    ensures fault { IfErr result.1 (IsFaultOf page (known (told_by D.keeps D.reads disk.old) stripe.table page)) }
    ensures reads { OnlyReads (told_by D.keeps D.reads disk.old) stripe.table result.0.table }
    ensures applied { result.0.applied ≡ stripe.applied }
    ensures disk { WasOnlyRead D.size D.keeps D.reads D.may_hold D.did disk.old disk.new }
    ensures later { D.faults disk.old ≤ D.faults disk.new }
    ensures cause { result.1 ≡ Err Home → HasRisen (D.faults disk.old) (D.faults disk.new) }
{
    let mut came = None;
    let _store = lent::value_of(stripe, PageStore::new(disk), page, &mut came);
    match came {
        Some(both) => both,
        None => unreachable!(),
    }
}

/// The image of a page, by its stripe.
pub(crate) fn image_of<D: Disk>(
    stripe: Stripe<Away>,
    disk: &mut D,
    page: u16,
    out: &mut Image,
) -> (Stripe<Away>, Result<(), StripeFault>)
    requires own { is_own stripe.table page ≡ true }
    requires few { stripe.table.pages ≤ 2048 }
    requires places { 33088 ≤ D.size disk.old }
    ensures image { OnOk result.1 (IsImageOf (known (told_by D.keeps D.reads disk.old) stripe.table page) out.new) }
    ensures fault { IfErr result.1 (IsImageFault page (known (told_by D.keeps D.reads disk.old) stripe.table page)) }
    ensures reads { OnlyReads (told_by D.keeps D.reads disk.old) stripe.table result.0.table }
    ensures applied { result.0.applied ≡ stripe.applied }
    ensures disk { WasOnlyRead D.size D.keeps D.reads D.may_hold D.did disk.old disk.new }
    ensures later { D.faults disk.old ≤ D.faults disk.new }
    ensures cause { result.1 ≡ Err Home → HasRisen (D.faults disk.old) (D.faults disk.new) }
{
    let mut came = None;
    let _store = lent::image_of(stripe, PageStore::new(disk), page, out, &mut came);
    match came {
        Some(both) => both,
        None => unreachable!(),
    }
}

/// Applies the next records of the log to the pages of a stripe.
pub(crate) fn redo<D: Disk>(
    stripe: Stripe<Away>,
    disk: &mut D,
    records: &[Record],
) -> (Stripe<Away>, Result<(), StripeFault>)
    requires room { stripe.applied + length records.now < 2 ^ 64 }
    requires few { stripe.table.pages ≤ 2048 }
    requires places { 33088 ≤ D.size disk.old }
    ensures values { OnOk result.1 ((log : Log) (page : ℕ) → AreNext stripe.table.pages stripe.applied log records.now → is_own stripe.table page ≡ true
        → IsAhead stripe.table.pages log stripe.applied page (known (told_by D.keeps D.reads disk.old) stripe.table page)
        → IsAhead stripe.table.pages log result.0.applied page (known (told_by D.keeps D.reads disk.old) result.0.table page)) }
    ensures others { OnOk result.1 ((page : ℕ) → is_touched stripe.table records.now page ≡ false → slot_of result.0.table page ≡ slot_of stripe.table page) }
    ensures dirty { OnOk result.1 ((page : ℕ) → is_dirty result.0.table page ≡ (is_dirty stripe.table page || is_touched stripe.table records.now page)) }
    ensures applied { OnOk result.1 (result.0.applied ≡ stripe.applied + length records.now) }
    ensures same { IsSameTable stripe.table result.0.table }
    ensures sound { OnOk result.1 ((page : ℕ) → is_touched stripe.table records.now page ≡ true → known (told_by D.keeps D.reads disk.old) stripe.table page ≡ NotSound → ⊥) }
    ensures fault { IfErr result.1 (IsApplyFault (told_by D.keeps D.reads disk.old) stripe.table stripe.applied records.now) }
    ensures unchanged { (page : ℕ) → result.1 ≡ Err (Bad page) → OnlyReads (told_by D.keeps D.reads disk.old) stripe.table result.0.table × (result.0.applied ≡ stripe.applied) }
    ensures kept { AreDirtyKept stripe.table → AreDirtyKept result.0.table }
    ensures disk { WasOnlyRead D.size D.keeps D.reads D.may_hold D.did disk.old disk.new }
    ensures later { D.faults disk.old ≤ D.faults disk.new }
    ensures cause { result.1 ≡ Err Home → HasRisen (D.faults disk.old) (D.faults disk.new) }
{
    let mut came = None;
    let _store = lent::redo(stripe, PageStore::new(disk), records, &mut came);
    match came {
        Some(both) => both,
        None => unreachable!(),
    }
}
